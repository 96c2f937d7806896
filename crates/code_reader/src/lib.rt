//! The code reader: from the Code attribute of a method to its instructions and handlers, or to the first fault in it (JVMS 4.7.3, 4.9.1,
//! 6.5). Lowering calls `read_code_at`, where it knows the place of the method; else there is `read_code`.
//! The laws `one_code_reading` and `each_code_is_told` say that each code has one answer; `code_is_the_body`, that the machine reads the
//! same instructions.
//! Begin with src/read.rt and specs/CodeReading.antt: division.rt divides the code, decode.rt reads an instruction, fault.rt judges it.
#![tactic(auto)]

mod body;
mod decode;
mod division;
mod fault;
mod handler;
pub mod laws;
mod number;
mod place;
mod read;
mod spot;
mod switch;

pub use place::method_offset;
pub use read::{read_code, read_code_at};
