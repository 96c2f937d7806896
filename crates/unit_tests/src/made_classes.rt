//! The files of the sample of three methods, read back, and its class files made again from what is read.

use crate::seen::see;
use class_maker::{make_class, sample};
use classfile_reader::read_class;
use jvm_model::ReadFailure;
use std::alloc::Global;
use std::process::Abort;
use std::test::Fail;
use toml_tables::{read_table, text_at};
use ts_outside::{SteadyTree, Tree};

/// More bytes than a file of the sample has.
const LIMIT: u32 = 1_000;

/// Sees how many entries the constant pool has, the index of the class, and how many methods there are; and that the bytes are made again.
fn see_class(
    rt: &impl Abort,
    alloc: Global,
    bytes: &[u8],
    want: (usize, u16, usize),
) -> Result<(), ReadFailure> {
    let class = read_class(alloc, bytes)?;
    let made = make_class(alloc, &class)?;
    let counts = (class.pool.len(), class.this_class, class.methods.len());
    see(rt, (counts, made.as_slice()), (want, bytes));
    Ok(())
}

/// Sees what a class file of the sample declares.
fn see_class_file(
    rt: &impl Abort,
    alloc: Global,
    tree: &mut SteadyTree,
    name: &str,
    want: (usize, u16, usize),
) -> Result<(), Fail> {
    let bytes = tree.read(alloc, name, LIMIT)?;
    see_class(rt, alloc, bytes.as_slice(), want)?;
    Ok(())
}

/// Sees of which class the property is.
fn see_property(rt: &impl Abort, alloc: Global, tree: &mut SteadyTree) -> Result<(), Fail> {
    let bytes = tree.read(alloc, "sample.toml", LIMIT)?;
    let table = read_table(alloc, bytes.as_slice())?;
    see(rt, text_at(&table, "class"), Some("F"));
    Ok(())
}

#[test]
fn the_sample_is_read_back(rt: HostRuntime) -> Result<(), Fail> {
    let alloc = rt.alloc();
    let mut tree = sample(alloc, 3)?;
    see_property(&rt, alloc, &mut tree)?;
    see_class_file(&rt, alloc, &mut tree, "F.class", (12, 6, 4))?;
    see_class_file(&rt, alloc, &mut tree, "Sample.class", (27, 17, 4))
}
