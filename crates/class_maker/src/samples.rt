//! The sample: a property, the class F that the property is of, and the class Sample, of which each method but `main` makes an object of F
//! and calls methods on it.

ghost use Rattle.std.specs.Prelude.{◌≡◌, ◌≤◌, IfOk};
ghost use Rattle.jvm_model.specs.Spelling.{spell};
ghost use Rattle.ts_outside.specs.Held.{file_of};
ghost use Rattle.class_maker.specs.Sample.{sample_files, class_f, class_sample};

mod classes;
mod code;
mod pool;

use crate::class::make_class;
use std::alloc::{AllocError, Global};
use ts_outside::SteadyTree;

/// The most methods of a sample, besides `main`.
pub const MOST_METHODS: u32 = 200;

/// The text of `sample.toml`: an object is opened at first, and may be read until it is closed.
const PROPERTY: &str = "version = 1
class = \"F\"
states = [\"opened\", \"closed\", \"error\"]
initial = \"opened\"
error = \"error\"
[[event]]
name = \"read\"
descriptor = \"()V\"
next = [\"opened\", \"error\", \"error\"]
[[event]]
name = \"close\"
descriptor = \"()V\"
next = [\"closed\", \"closed\", \"error\"]
";

/// The bytes of `F.class`.
fn bytes_of_f(alloc: Global) -> Result<Vec<u8>, AllocError>
    ensures { IfOk result (λ bytes. bytes.items ≡ spell class_f) }
{
    let class = classes::class_f(alloc)?;
    make_class(alloc, &class)
}

/// The bytes of `Sample.class`.
fn bytes_of_sample(alloc: Global, count: u32) -> Result<Vec<u8>, AllocError>
    requires { count ≤ MOST_METHODS }
    ensures { IfOk result (λ bytes. bytes.items ≡ spell (class_sample count)) }
{
    let class = classes::class_sample(alloc, count)?;
    make_class(alloc, &class)
}

/// A file by its name and its bytes.
fn file(alloc: Global, name: &str, bytes: Vec<u8>) -> Result<(String, Vec<u8>), AllocError>
    ensures { IfOk result (λ made. file_of made ≡ record { name = name.now; bytes = bytes.items }) }
{
    let name = String::from_str(alloc, name)?;
    Ok((name, bytes))
}

/// Three files, in a tree that holds them in memory: `sample.toml`, `F.class`, and `Sample.class` with so many methods besides `main`.
pub fn sample(alloc: Global, count: u32) -> Result<SteadyTree, AllocError>
    requires { count ≤ MOST_METHODS }
    ensures { IfOk result (λ tree. tree ≡ sample_files count) }
{
    let property = Vec::from_slice(alloc, PROPERTY.as_bytes())?;
    let property = file(alloc, "sample.toml", property)?;
    let class = file(alloc, "F.class", bytes_of_f(alloc)?)?;
    let sample = file(alloc, "Sample.class", bytes_of_sample(alloc, count)?)?;
    Ok(SteadyTree::new(vec![in alloc; property, class, sample]?))
}
