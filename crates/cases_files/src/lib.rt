//! For tests: the cases of the programs that print what they find in class files. A case is a folder of class files, with or without a stub
//! file. Here its files are read and linked, and what they declare gets the names under which it is printed.
//! The programs call `tell_asked` with what they print of a case, and of a case `read_case` and `Names::of`. Begin with src/telling.rt and
//! src/programs.rt.
#![tactic(auto)]

mod case_failure;
mod class_files;
mod folder_list;
mod members;
mod names;
mod programs;
mod sites;
mod stubs;
mod telling;

pub use case_failure::{CaseFailure, CaseFault, is_refusal, tell_failure};
pub use class_files::{read_file, read_files};
pub use folder_list::folders;
pub use members::{MemberName, Members, members_of, method_text, shown, signature_of};
pub use names::{Names, method_of};
pub use programs::{Linked, link_case, read_case};
pub use sites::write_site;
pub use stubs::{STUB_FILE, read_all_stubs};
pub use telling::{Tell, tell_asked};
