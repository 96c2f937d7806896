//! Whole runs over trees and sinks in memory: words that ask for nothing, faults of the outside, and sinks that take little. The
//! folder cases/ has runs of the built program.

ghost use Rattle.std.specs.Prelude.{◌≡◌, Some, None};

use crate::stream::{PROPERTY, READ_THEN_CLOSE};
use std::alloc::{AllocError, Global};
use std::process::Abort;
use std::test::Fail;
use ts_outside::{MemorySink, MemoryTree, Sink, SinkFailure, SteadySink, SteadyTree, names_differ};
use typestate_core::{Status, run};

const UNPROVED: &str = "unproved F.main()V 0 F\nsites 1 safe 0 unproved 1 limit 0\n";

const SAFE: &str = "safe 2 F.main()V 0 F\nsites 1 safe 1 unproved 0 limit 0\n";

/// The words of a run of all stages, with this property file and this entry.
fn words_of_all(alloc: Global, property: &str, entry: &str) -> Result<Vec<String>, AllocError> {
    let mut words = Vec::new(alloc);
    for word in ["--classes", "d", "--property", property, "--entry", entry] {
        words.push(String::from_str(alloc, word)?)?;
    }
    Ok(words)
}

/// The words of a run of the first stage alone.
fn words(alloc: Global, property: &str, entry: &str) -> Result<Vec<String>, AllocError> {
    let mut words = words_of_all(alloc, property, entry)?;
    for word in ["--stages", "1"] {
        words.push(String::from_str(alloc, word)?)?;
    }
    Ok(words)
}

/// The files of a folder: the class file and the property file.
fn files(alloc: Global) -> Result<Vec<(String, Vec<u8>)>, AllocError> {
    let class = (
        String::from_str(alloc, "F.class")?,
        Vec::from_slice(alloc, &READ_THEN_CLOSE)?,
    );
    let property = (
        String::from_str(alloc, "p.toml")?,
        Vec::from_slice(alloc, PROPERTY.as_bytes())?,
    );
    Ok(vec![in alloc; class, property]?)
}

/// Sees what a run over a steady tree says.
fn check_words(
    rt: &impl Abort,
    alloc: Global,
    words: &[String],
    said: (Status, &str),
) -> Result<(), AllocError> {
    let held = files(alloc)?;
    assert!(rt; names_differ(&held));
    let mut out = MemorySink::new(alloc, 100, Vec::new(alloc))?;
    let status = run(alloc, words, &mut SteadyTree::new(held), &mut out);
    assert_eq!(rt; status, said.0);
    assert_eq!(rt; out.taken(), said.1.as_bytes());
    Ok(())
}

#[test]
fn words_are_read(rt: HostRuntime) -> Result<(), Fail> {
    let alloc = rt.alloc();
    check_words(&rt, alloc, &[], (Status::Usage, "usage words\n"))?;
    for (property, entry, said) in [
        ("p.toml", "F.main", (Status::SomeUnproved, UNPROVED)),
        ("p.toml", "main", (Status::Usage, "usage words\n")),
        (
            "p.toml",
            "G.main",
            (Status::Refused, "refused - 0 NoEntry\n"),
        ),
        (
            "a \\\u{e9}",
            "F.main",
            (Status::Usage, "missing a\\x20\\x5c\\xc3\\xa9\n"),
        ),
    ] {
        check_words(&rt, alloc, &words(alloc, property, entry)?, said)?;
    }
    Ok(())
}

#[test]
fn without_the_option_all_stages_run(rt: HostRuntime) -> Result<(), Fail> {
    let words = words_of_all(rt.alloc(), "p.toml", "F.main")?;
    check_words(&rt, rt.alloc(), &words, (Status::AllSafe, SAFE))?;
    Ok(())
}

/// Sees what a run says where some calls of the tree and of the sink fail, and the sink has room for so many bytes.
fn check_outside(
    rt: &impl Abort,
    alloc: Global,
    failing: (&[u32], &[u32]),
    capacity: u32,
    said: (Status, &str),
) -> Result<(), AllocError> {
    let held = files(alloc)?;
    assert!(rt; names_differ(&held));
    let mut tree = MemoryTree::new(held, Vec::from_slice(alloc, failing.0)?);
    let mut out = MemorySink::new(alloc, capacity, Vec::from_slice(alloc, failing.1)?)?;
    let status = run(
        alloc,
        &words(alloc, "p.toml", "F.main")?,
        &mut tree,
        &mut out,
    );
    assert_eq!(rt; status, said.0);
    assert_eq!(rt; out.taken(), said.1.as_bytes());
    Ok(())
}

/// A run reads the property, lists the folder and reads the class.
#[test]
fn calls_of_the_tree_fail(rt: HostRuntime) -> Result<(), Fail> {
    for call in 0..3 {
        check_outside(
            &rt,
            rt.alloc(),
            (&[call], &[]),
            100,
            (Status::ReadFault, ""),
        )?;
    }
    check_outside(
        &rt,
        rt.alloc(),
        (&[3], &[]),
        100,
        (Status::SomeUnproved, UNPROVED),
    )?;
    Ok(())
}

#[test]
fn writes_fail(rt: HostRuntime) -> Result<(), Fail> {
    check_outside(&rt, rt.alloc(), (&[], &[0]), 100, (Status::WriteFault, ""))?;
    check_outside(
        &rt,
        rt.alloc(),
        (&[], &[1]),
        100,
        (Status::WriteFault, "unproved F.main()V 0 F\n"),
    )?;
    check_outside(
        &rt,
        rt.alloc(),
        (&[], &[]),
        27,
        (Status::WriteFault, "unproved F.main()V 0 F\nsite"),
    )?;
    Ok(())
}

#[test]
fn a_steady_sink_counts_what_is_written(rt: HostRuntime) -> Result<(), Fail> {
    let alloc = rt.alloc();
    let held = files(alloc)?;
    assert!(rt; names_differ(&held));
    let mut out = SteadySink::new();
    let status = run(
        alloc,
        &words(alloc, "p.toml", "F.main")?,
        &mut SteadyTree::new(held),
        &mut out,
    );
    assert_eq!(rt; status, Status::SomeUnproved);
    assert_eq!(rt; status.code(), 1);
    assert_eq!(rt; out.count(), UNPROVED.len() as u64);
    Ok(())
}

/// A sink that takes three bytes of each piece at most, and keeps the pieces.
#[derive(Drop)]
struct ThreeByteSink {
    sink: MemorySink,
    alloc: Global,
    pieces: Vec<Vec<u8>>,
}

impl ThreeByteSink {
    /// Keeps a piece.
    fn keep(&mut self, piece: &[u8]) -> Result<(), AllocError>
        ensures { self.new.sink ≡ self.old.sink }
    {
        let kept = Vec::from_slice(self.alloc, piece)?;
        self.pieces.push(kept)?;
        Ok(())
    }
}

impl Sink for ThreeByteSink {
    ghost taken = { λ s. Some s.sink.bytes };

    ghost handed = { λ _. None };

    ghost faults = { λ s. s.sink.faults };

    fn write(&mut self, piece: &[u8]) -> Result<usize, SinkFailure> {
        let _ = self.keep(piece);
        let (first, _others) = piece.split_at(piece.len().min(3));
        self.sink.write(first)
    }
}

/// Sees that each piece is what is left of a line, three bytes after the piece before, and that nothing is left.
fn check_pieces(rt: &impl Abort, text: &[u8], pieces: &[Vec<u8>]) {
    let mut rest = text;
    for piece in pieces {
        assert!(rt; rest.starts_with(piece.as_slice()));
        assert_eq!(rt;
            piece.iter().position(|byte| *byte == b'\n'),
            piece.len().checked_sub(1)
        );
        let (_taken, left) = rest.split_at(piece.len().min(3).min(rest.len()));
        rest = left;
    }
    assert!(rt; rest.is_empty());
}

#[test]
fn three_bytes_are_written_at_a_time(rt: HostRuntime) -> Result<(), Fail> {
    let alloc = rt.alloc();
    let held = files(alloc)?;
    assert!(rt; names_differ(&held));
    let mut out = ThreeByteSink {
        sink: MemorySink::new(alloc, 100, Vec::new(alloc))?,
        alloc,
        pieces: Vec::new(alloc),
    };
    let status = run(
        alloc,
        &words(alloc, "p.toml", "F.main")?,
        &mut SteadyTree::new(held),
        &mut out,
    );
    assert_eq!(rt; status, Status::SomeUnproved);
    assert_eq!(rt; out.sink.taken(), UNPROVED.as_bytes());
    check_pieces(&rt, UNPROVED.as_bytes(), out.pieces.as_slice());
    Ok(())
}

/// The first call of the tree is to fail, and still does after a run of words that ask for nothing.
#[test]
fn a_tree_is_not_asked_for_wrong_words(rt: HostRuntime) -> Result<(), Fail> {
    let alloc = rt.alloc();
    let held = files(alloc)?;
    assert!(rt; names_differ(&held));
    let mut tree = MemoryTree::new(held, Vec::from_slice(alloc, &[0])?);
    let mut out = SteadySink::new();
    assert_eq!(rt; run(alloc, &[], &mut tree, &mut out), Status::Usage);
    let asked = words(alloc, "p.toml", "F.main")?;
    assert_eq!(rt; run(alloc, &asked, &mut tree, &mut out), Status::ReadFault);
    assert_eq!(rt;
        run(alloc, &asked, &mut tree, &mut out),
        Status::SomeUnproved
    );
    Ok(())
}
