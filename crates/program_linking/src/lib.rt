//! Linking: from the class files of a folder and from stubs to one `Program`, or to the first demand that is not met, with its file and
//! offset (JVMS 5.3, 5.3.5). The run calls `link`.
//! Begin with src/link.rt: claims.rt demands that names differ, that what is named is there, and that it is of the right kind; origins.rt
//! says where the classes come from, with what patches add.
#![tactic(auto)]

mod claims;
mod class_names;
mod copies;
mod descriptions;
mod keys;
mod known;
pub mod link;
mod mentions;
mod natives;
mod origins;
mod patch_index;
mod patches;
mod supers;
