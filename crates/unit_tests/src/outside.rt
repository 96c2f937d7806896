//! Trees and sinks in memory, the real folder, and standard output.

ghost use Rattle.std.specs.Prelude.{◌<◌, length};

use crate::seen::see;
use failure::Failure;
use std::alloc::{AllocError, Global};
use std::process::Abort;
use std::rt::Files;
use std::test::Fail;
use std::{env, fs, io, process};
use ts_outside::{
    MemorySink, MemoryTree, RealSink, RealTree, Sink, SinkFailure, SteadySink, SteadyTree, Tree,
    TreeFailure, TreeFault, names_differ,
};

/// A file of this name, which holds its own name.
fn file(alloc: Global, name: &str) -> Result<(String, Vec<u8>), AllocError> {
    let bytes = Vec::from_slice(alloc, name.as_bytes())?;
    Ok((String::from_str(alloc, name)?, bytes))
}

/// Four files, of which three are class files.
fn four_files(alloc: Global) -> Result<Vec<(String, Vec<u8>)>, AllocError> {
    let mut files = Vec::new(alloc);
    for name in ["b.class", "a.class", "a/c.class", "x.txt"] {
        files.push(file(alloc, name)?)?;
    }
    Ok(files)
}

/// The names, each with a blank after it.
fn line_of(alloc: Global, names: &Vec<String>) -> Result<String, AllocError> {
    let mut line = String::new(alloc);
    for name in names {
        line.push_str(name.as_str())?;
        line.push(' ')?;
    }
    Ok(line)
}

/// Sees which class files a tree lists.
fn see_listing<T: Tree>(
    rt: &impl Abort,
    alloc: Global,
    tree: &mut T,
    want: &str,
) -> Result<(), TreeFailure> {
    let names = tree.list(alloc)?;
    see(rt, line_of(alloc, &names)?.as_str(), want);
    Ok(())
}

/// Sees that a tree cannot be listed.
fn see_no_listing<T: Tree>(rt: &impl Abort, alloc: Global, tree: &mut T) {
    let fault = tree.list(alloc).err();
    see(rt, fault, Some(Failure::Cause(TreeFault::Failed)));
}

/// Sees what the first bytes of a file are, at most so many.
fn see_bytes<T: Tree>(
    rt: &impl Abort,
    alloc: Global,
    tree: &mut T,
    (name, limit): (&str, u32),
    want: &str,
) -> Result<(), TreeFailure> {
    let bytes = tree.read(alloc, name, limit)?;
    see(rt, bytes.as_slice(), want.as_bytes());
    Ok(())
}

/// Sees why a file cannot be read.
fn see_fault<T: Tree>(rt: &impl Abort, alloc: Global, tree: &mut T, name: &str, want: TreeFault) {
    let fault = tree.read(alloc, name, 3).err();
    see(rt, (name, fault), (name, Some(Failure::Cause(want))));
}

/// A tree of four files, of which the calls of these numbers fail.
fn memory_tree(rt: &impl Abort, alloc: Global, failing: &[u32]) -> Result<MemoryTree, AllocError> {
    let files = four_files(alloc)?;
    assert!(rt; names_differ(files.as_slice()));
    Ok(MemoryTree::new(files, Vec::from_slice(alloc, failing)?))
}

/// Sees what the tree lists, reads and does not read. Its second and its fourth call fail.
fn see_memory_tree(
    rt: &impl Abort,
    alloc: Global,
    tree: &mut MemoryTree,
) -> Result<(), TreeFailure> {
    see_listing(rt, alloc, tree, "a.class a/c.class b.class ")?;
    see_bytes(rt, alloc, tree, ("x.txt", 100), "x.txt")?;
    see_no_listing(rt, alloc, tree);
    see_bytes(rt, alloc, tree, ("a/c.class", 3), "a/c")?;
    see_fault(rt, alloc, tree, "a.class", TreeFault::Failed);
    see_fault(rt, alloc, tree, "c.class", TreeFault::Missing);
    Ok(())
}

#[test]
fn memory_tree_lists_reads_and_fails(rt: HostRuntime) -> Result<(), TreeFailure> {
    let mut tree = memory_tree(&rt, rt.alloc(), &[2, 4])?;
    see_memory_tree(&rt, rt.alloc(), &mut tree)
}

/// A tree of four files.
fn steady_tree(rt: &impl Abort, alloc: Global) -> Result<SteadyTree, AllocError> {
    let files = four_files(alloc)?;
    assert!(rt; names_differ(files.as_slice()));
    Ok(SteadyTree::new(files))
}

/// Sees what the tree lists, reads and does not read.
fn see_steady_tree(
    rt: &impl Abort,
    alloc: Global,
    tree: &mut SteadyTree,
) -> Result<(), TreeFailure> {
    see_listing(rt, alloc, tree, "a.class a/c.class b.class ")?;
    see_bytes(rt, alloc, tree, ("b.class", 1), "b")?;
    see_fault(rt, alloc, tree, "", TreeFault::Missing);
    Ok(())
}

#[test]
fn steady_tree_lists_and_reads(rt: HostRuntime) -> Result<(), TreeFailure> {
    let mut tree = steady_tree(&rt, rt.alloc())?;
    see_steady_tree(&rt, rt.alloc(), &mut tree)
}

/// Four files, and one more that has the name of one of them.
fn five_files(alloc: Global) -> Result<Vec<(String, Vec<u8>)>, AllocError> {
    let mut files = four_files(alloc)?;
    files.push((String::from_str(alloc, "a.class")?, Vec::new(alloc)))?;
    Ok(files)
}

#[test]
fn same_names_are_found(rt: HostRuntime) -> Result<(), AllocError> {
    let files = five_files(rt.alloc())?;
    see(&rt, names_differ(&files), false);
    Ok(())
}

/// Writes a piece, and sees what is taken then.
fn see_write(
    rt: &impl Abort,
    sink: &mut MemorySink,
    piece: &[u8],
    answer: Result<usize, SinkFailure>,
    taken: &[u8],
)
    requires { 0 < length piece.now }
{
    let told = sink.write(piece);
    see(rt, (told, sink.taken()), (answer, taken));
}

/// Writes pieces until nothing fits. The second write fails.
fn see_writes(rt: &impl Abort, sink: &mut MemorySink) {
    see_write(rt, sink, b"abc", Ok(3), b"abc");
    see_write(rt, sink, b"de", Err(SinkFailure), b"abc");
    see_write(rt, sink, b"defg", Ok(2), b"abcde");
    see_write(rt, sink, b"h", Err(SinkFailure), b"abcde");
}

#[test]
fn memory_sink_takes_what_fits(rt: HostRuntime) -> Result<(), AllocError> {
    let failing = Vec::from_slice(rt.alloc(), &[1])?;
    see_writes(&rt, &mut MemorySink::new(rt.alloc(), 5, failing)?);
    Ok(())
}

#[test]
fn steady_sink_counts(rt: HostRuntime) {
    let mut sink = SteadySink::new();
    let told = [sink.write(b"abc"), sink.write(b"de")];
    see(&rt, (told, sink.count()), ([Ok(3), Ok(2)], 5));
}

/// The path, then `/` and the name.
fn under(alloc: Global, path: &str, name: &str) -> Result<String, AllocError> {
    format!(in alloc; "{path}/{name}")
}

/// Writes a file below the path, which holds its own name.
fn write_file(rt: &impl Files, alloc: Global, path: &str, name: &str) -> io::Result<()> {
    let file = under(alloc, path, name)?;
    fs::write(rt, file.as_str(), name)
}

/// Makes a folder of this path with two folders, three class files and another file.
fn make_folder(rt: &impl Files, alloc: Global, path: &str) -> io::Result<()> {
    make_folders(rt, alloc, path)?;
    for name in ["b.class", "p/a.class", "p/q/c.class", "x.txt"] {
        write_file(rt, alloc, path, name)?;
    }
    Ok(())
}

/// Makes the folder and those in it.
fn make_folders(rt: &impl Files, alloc: Global, path: &str) -> io::Result<()> {
    let folder = under(alloc, path, "p/q")?;
    fs::create_dir_all(rt, folder.as_str())
}

/// A path that no other process takes.
fn own_path(rt: &HostRuntime, alloc: Global) -> io::Result<String> {
    let parent = env::temp_dir(rt)?;
    let id = process::id(rt.process());
    Ok(format!(in alloc; "{}/ts_outside-{id}", parent.display())?)
}

/// Sees what the tree of the folder lists, reads and does not read.
fn see_folder<T: Tree>(rt: &impl Abort, alloc: Global, tree: &mut T) -> Result<(), TreeFailure> {
    see_listing(rt, alloc, tree, "b.class p/a.class p/q/c.class ")?;
    see_bytes(rt, alloc, tree, ("p/q/c.class", 3), "p/q")?;
    see_bytes(rt, alloc, tree, ("x.txt", 100), "x.txt")?;
    for name in ["p/b.class", "b.class/a", "p/../b.class", "/b.class"] {
        see_fault(rt, alloc, tree, name, TreeFault::Missing);
    }
    see_fault(rt, alloc, tree, "p", TreeFault::Failed);
    Ok(())
}

/// The tree of the folder of a path.
fn real_tree(rt: &HostRuntime, alloc: Global, path: &str) -> io::Result<RealTree<HostRuntime>> {
    let dir = String::from_str(alloc, path)?;
    Ok(RealTree::new(rt.clone()?, dir))
}

/// Makes a folder of this path, and sees it.
fn see_path(rt: &HostRuntime, abort: &impl Abort, alloc: Global, path: &str) -> Result<(), Fail> {
    make_folder(rt, alloc, path)?;
    let mut tree = real_tree(rt, alloc, path)?;
    see_folder(abort, alloc, &mut tree)?;
    fs::remove_dir_all(rt, path)?;
    see_no_listing(abort, alloc, &mut tree);
    Ok(())
}

#[test]
fn real_tree_walks_a_folder(rt: HostRuntime) -> Result<(), Fail> {
    let path = own_path(&rt, rt.alloc())?;
    see_path(&rt, &rt, rt.alloc(), path.as_str())
}

#[test]
fn real_sink_writes(rt: HostRuntime) -> io::Result<()> {
    let mut sink = RealSink::new(rt.clone()?);
    see(&rt, sink.write(b"a line\n"), Ok(7));
    Ok(())
}
