//! The class file maker: from a `ClassFile` to the bytes that spell it (JVMS 4.1 to 4.7), and the sample, which is a property and two class
//! files. The layers above call `make_class` and `sample`.
//! `make_class` asks only that each list is no longer than its count can say: the bytes need not be ones that are read.
//! Begin with src/class.rt and src/samples.rt; the classes of the sample stand in specs/Sample.antt.
#![tactic(auto)]

mod class;
pub mod laws;
mod number;
mod pool;
mod samples;
mod spelled;
mod structures;

pub use class::make_class;
pub use samples::{MOST_METHODS, sample};
