//! The data that every layer speaks of: class files as the JVM Specification, SE 8 (JVMS) defines them, code, stubs, the automaton of a
//! property, allocation sites, and the reasons of a refusal; and small functions on names, descriptors, the constant pool and offsets.
//! The layers above read the fields, call `descriptor_of`, `row_of_opcode` and the look-ups of `lookup` and `sound`, and cite the
//! definitions of specs/: what is spelled and sound, and what linking, resolution and selection give.
//! Begin with src/class_file.rt and specs/Soundness.antt for class files, specs/Programs.antt for programs, specs/Table.antt for
//! instructions.
#![tactic(auto)]

pub mod access;
pub mod automaton;
pub mod class_file;
pub mod code;
pub mod descriptor;
pub mod grammar;
pub mod laws;
pub mod layout;
pub mod lookup;
pub mod name;
pub mod number;
pub mod opcode;
pub mod pool;
pub mod program;
pub mod reason;
pub mod result_class;
pub mod sequence;
pub mod site;
pub mod sound;
pub mod stub;

pub use access::AccessFlag;
pub use automaton::{Automaton, Event};
pub use class_file::{Attribute, ClassFile, Member};
pub use code::{Code, Handler, Instruction, PlacedInstruction};
pub use descriptor::{Descriptor, Kind, descriptor_of};
pub use grammar::Grammar;
pub use lookup::{MemberReference, Signature};
pub use name::Name;
pub use number::{ClassNo, FieldNo, MethodNo, SiteNo};
pub use pool::{EntryKind, PoolEntry};
pub use program::{NamedClass, Origin};
pub use reason::{Fault, ReadFailure, Reason, Refusal, reason_word};
pub use sequence::{Bytes, Sequence};
pub use site::{Site, SiteKind};
pub use stub::{StubArgument, StubClass, StubField, StubMethod, StubResult};
