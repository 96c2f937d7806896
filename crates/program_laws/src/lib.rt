//! Laws of whole programs: each reference, call and special call in a program has an outcome (`each_method_resolution`, `each_selection`
//! and those beside them), and no second one (`one_method_resolution`, `one_selection`). Class files and stubs link to one program or one
//! refusal (`one_link`); what is a subtype, and what fits a type, is decided (`subtypes_are_decided`, `fits_is_decided`).
//! So a contract that says which answer is given leaves no choice. The laws call nothing, and stand on the definitions alone.
//! Begin with specs/Linking.antt, Resolution.antt and Selection.antt of jvm_model, which they speak of.
#![tactic(auto)]

pub mod each_resolution;
pub mod each_selection;
pub mod linking;
pub mod resolution;
pub mod selection;
pub mod subtypes;
