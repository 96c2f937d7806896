//! Why bytes are not read as a table.

use crate::document::DOCUMENT_LIMIT;
use failure::Failure;
use thiserror::Error;

/// There are more bytes than `DOCUMENT_LIMIT`, or they are not UTF-8, or no TOML document.
#[derive(Clone, Copy, Debug, PartialEq, Eq, Error)]
#[error("no TOML document of at most {DOCUMENT_LIMIT} bytes")]
pub struct NoDocument;

/// Why bytes are not read as the table of a document.
pub type TableFailure = Failure<NoDocument>;
