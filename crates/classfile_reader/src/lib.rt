//! The class file reader: from bytes to the sound `ClassFile` that they spell, or to the first fault (JVMS 4.1 to 4.7). The layers above
//! call `read_class`.
//! The law `one_class_file` says that bytes spell at most one class file; `first_breach_is_least`, that of the places that do not hold the
//! first one has the least offset.
//! Begin with src/read.rt: class.rt and pool.rt read, soundness.rt walks the places where the class uses an index, a text or a name.
#![tactic(auto)]

mod class;
pub mod laws;
mod limit;
mod pool;
mod read;
mod soundness;

pub use limit::CLASS_FILE_LIMIT;
pub use read::read_class;
