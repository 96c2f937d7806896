//! Certificates as texts: their lines are written, measured, ordered and guessed.

use access_paths::{Fields, Path, PathSet, Root};
use certificate_lines::{
    Holder, Line, ListedEdge, compare_lines, compare_sites, kind_of, line_length, push_line,
};
use certificates::{BadLine, Ranges, read_certificate, write_certificate};
use failure::Failure;
use jvm_model::{Bytes, Event, FieldNo, MethodNo, Sequence, Site, SiteKind};
use line_guesses::guess_line;
use op_model::Spot;
use slot_names::Variable;
use stage_facts::{PlainFact, PlainTuple};
use std::alloc::{AllocError, Global};
use std::process::Abort;
use std::test::Fail;

/// Bytes in a vector of their own.
fn bytes(alloc: Global, text: &[u8]) -> Result<Bytes, AllocError> {
    let mut copy = Vec::new(alloc);
    copy.extend_from_slice(text)?;
    Ok(Sequence::from_vec(copy))
}

/// A call with its descriptor and its next states.
fn event(alloc: Global, name: &[u8], next: &[u8]) -> Result<Line, AllocError> {
    Ok(Line::Event(Event {
        name: bytes(alloc, name)?,
        descriptor: bytes(alloc, b"()V")?,
        next: bytes(alloc, next)?,
    }))
}

/// A site in a method, whose class has a space in its name.
fn site(alloc: Global, method: u32) -> Result<Site, AllocError> {
    Ok(Site {
        kind: SiteKind::New,
        method: Some(MethodNo(method)),
        offset: 3,
        class: bytes(alloc, b"a F")?,
    })
}

/// Adds the lines of a property, an entry and a depth.
fn add_property(alloc: Global, lines: &mut Vec<Line>) -> Result<(), AllocError> {
    lines.push(Line::Version)?;
    lines.push(Line::Class(bytes(alloc, b"L")?))?;
    lines.push(Line::State(bytes(alloc, b"opened")?))?;
    lines.push(Line::State(bytes(alloc, b"error")?))?;
    lines.push(Line::Initial(0))?;
    lines.push(Line::Error(1))?;
    lines.push(event(alloc, b"read", &[0, 1])?)?;
    lines.push(Line::Entry(MethodNo(4)))?;
    lines.push(Line::Depth(2))?;
    Ok(())
}

/// Adds the lines of what is listed.
fn add_sets(alloc: Global, lines: &mut Vec<Line>) -> Result<(), AllocError> {
    lines.push(Line::Reached(MethodNo(4)))?;
    let slot = Variable::At {
        method: MethodNo(4),
        offset: 7,
        slot: 1,
    };
    lines.push(Line::PointsTo {
        holder: Holder::Variable(slot),
        site: site(alloc, 4)?,
    })?;
    lines.push(Line::PointsTo {
        holder: Holder::Field(site(alloc, 4)?, FieldNo(9)),
        site: site(alloc, 4)?,
    })?;
    lines.push(Line::Modifies {
        method: MethodNo(4),
        field: FieldNo(10),
    })?;
    lines.push(Line::Claim {
        stage: 2,
        site: site(alloc, 4)?,
    })?;
    Ok(())
}

/// An edge to what is known of an object.
fn edge(alloc: Global) -> Result<Line, AllocError> {
    let field = Path::along(Root::Slot(3), Fields::One(FieldNo(7)));
    let fact = PlainFact::OfObject(PlainTuple {
        unique: true,
        state: 1,
        must: PathSet::empty()
            .add(&Path::new(Root::Slot(0)))
            .set
            .add(&field)
            .set,
        may: false,
        must_not: PathSet::empty(),
    });
    Ok(Line::PathEdge(ListedEdge {
        stage: 2,
        site: site(alloc, 4)?,
        method: None,
        entry: PlainFact::NoneYet,
        spot: Spot::Returned,
        fact,
    }))
}

const TEXT: &[u8] = b"typestate-certificate 1
class L
state opened
state error
initial 0
error 1
event read ()V 0 1
entry 4
depth 2
reached 4
pts v 4 7 1 n 4 3 a\\x20F
pts f n 4 3 a\\x20F 9 n 4 3 a\\x20F
mods 4 10
claim 2 n 4 3 a\\x20F
edge 2 n 4 3 a\\x20F boot none ret t 1 1 0 v0,v3.7 -
end
";

/// Lines of all kinds.
fn all_lines(alloc: Global) -> Result<Vec<Line>, AllocError> {
    let mut lines = Vec::new(alloc);
    add_property(alloc, &mut lines)?;
    add_sets(alloc, &mut lines)?;
    lines.push(edge(alloc)?)?;
    lines.push(Line::End)?;
    Ok(lines)
}

/// Whether the text of the lines is this.
fn are_written(alloc: Global, lines: &[Line], text: &[u8]) -> bool {
    match write_certificate(alloc, lines) {
        Ok(written) => written.as_slice() == text,
        Err(_) => false,
    }
}

/// The length of all lines together, as far as 64 bits hold it.
fn length_of(lines: &[Line]) -> u64 {
    let mut sum: u64 = 0;
    for line in lines {
        let long = line_length(line);
        if long < 1000 {
            sum = sum.saturating_add(long as u64);
        }
    }
    sum
}

/// Whether the lines behind the seventh ascend: those before it have the order of the automaton.
fn ascend(lines: &[Line]) -> bool {
    for at in 7..lines.len() {
        if !compare_lines(&lines[at - 1], &lines[at]).is_lt() {
            return false;
        }
    }
    true
}

/// Whether the text is these lines, each guessed as it stands here.
fn guessed(alloc: Global, lines: &[Line], text: &[u8]) -> Result<bool, AllocError> {
    let mut rest = text;
    for line in lines {
        let (guess, after) = guess_line(alloc, rest)?;
        if !compare_lines(&guess, line).is_eq() {
            return Ok(false);
        }
        rest = after;
    }
    Ok(rest.is_empty())
}

#[test]
fn lines_are_written_measured_and_guessed(rt: HostRuntime) -> Result<(), Fail> {
    let alloc = rt.alloc();
    let lines = all_lines(alloc)?;
    let written = are_written(alloc, lines.as_slice(), TEXT);
    let long = length_of(lines.as_slice());
    let same = guessed(alloc, lines.as_slice(), TEXT)?;
    let ordered = ascend(lines.as_slice());
    assert!(rt; written);
    assert!(rt; long == 266);
    assert!(rt; same);
    assert!(rt; ordered);
    Ok(())
}

/// Where the reading of a text ends: behind so many lines, or at a line that is not of the format.
fn read_end(alloc: Global, text: &[u8]) -> Result<usize, u32> {
    let ranges = Ranges {
        methods: 5,
        fields: 11,
    };
    match read_certificate(alloc, ranges, text) {
        Ok(certificate) => Ok(certificate.lines().len()),
        Err(Failure::Cause(BadLine(number))) => Err(number),
        Err(Failure::OutOfMemory) => Err(u32::MAX),
    }
}

#[test]
fn a_certificate_is_read(rt: HostRuntime) -> Result<(), Fail> {
    let alloc = rt.alloc();
    assert!(rt; read_end(alloc, TEXT) == Ok(16));
    Ok(())
}

#[test]
fn the_first_bad_line_is_told(rt: HostRuntime) -> Result<(), Fail> {
    let alloc = rt.alloc();
    let (cut, _newline) = TEXT.split_at(265);
    assert!(rt; read_end(alloc, b"") == Err(1));
    assert!(rt; read_end(alloc, b"typestate-certificate 1\nclass \n") == Err(2));
    assert!(rt; read_end(alloc, cut) == Err(16));
    Ok(())
}

#[test]
fn a_line_has_a_kind_and_its_site_an_order(rt: HostRuntime) -> Result<(), Fail> {
    let alloc = rt.alloc();
    let line = Line::Claim {
        stage: 3,
        site: site(alloc, 4)?,
    };
    let kind = kind_of(&line);
    let order = compare_sites(&site(alloc, 9)?, &site(alloc, 10)?);
    let mut text = Vec::new(alloc);
    push_line(&mut text, &line)?;
    assert!(rt; kind == 11);
    assert!(rt; order.is_lt());
    assert!(rt; text.as_slice() == b"claim 3 n 4 3 a\\x20F\n".as_slice());
    Ok(())
}
