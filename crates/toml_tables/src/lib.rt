//! From bytes to the table of a TOML document, and what stands at its keys. The readers of property files and of stub files call
//! `read_table`, and then `text_at`, `array_at`, `value_at` and the others of src/table_access.rt.
//! The law `one_document` says that bytes are one document, or none. Begin with src/document.rt.
#![tactic(auto)]

mod document;
mod laws;
mod table_access;
mod table_failure;

pub use document::{DOCUMENT_LIMIT, read_table};
pub use laws::one_document;
pub use table_access::{
    array_at, bytes_at, bytes_of, flag_at, has_only, integer_at, optional_bytes_at, other_key,
    text_at, value_at,
};
pub use table_failure::{NoDocument, TableFailure};
