//! The reading of a document's bytes as its table.

ghost use Rattle.std.specs.Prelude.{◌≡◌, ◌<◌, length, Err, IfOk, MatchResult};
ghost use Rattle.toml.specs.Data.{Members};
ghost use Rattle.toml.specs.View.{table_view};
ghost use Rattle.failure.specs.declared.Failure.TheVariants.{Cause, OutOfMemory};
ghost use Rattle.toml_tables.specs.Documents.{document_limit, no_document, IsDocument, IsNoDocument};

use crate::table_failure::{NoDocument, TableFailure};
use failure::Failure;
use std::alloc::Global;
use toml::Table;

/// The most bytes of a document.
pub const DOCUMENT_LIMIT: usize = 1_048_576;

/// Reads the bytes of a TOML document as its table.
///
/// It answers `NoDocument` where there are more bytes than `DOCUMENT_LIMIT`, or they are not UTF-8, or not in the
/// grammar of TOML, and `OutOfMemory` where an allocation fails. Every answer but `OutOfMemory` is determined by the
/// bytes.
pub fn read_table(alloc: Global, bytes: &[u8]) -> Result<Table, TableFailure>
    ensures found { IfOk result (λ table. IsDocument bytes.now (table_view table)) }
    ensures refused { result ≡ Err (Cause no_document) → IsNoDocument bytes.now }

    // The bytes of a document are read as its very table.
    ensures only { (members : Members) → IsDocument bytes.now members
        → MatchResult result (λ table. table_view table ≡ members) (λ failure. failure ≡ OutOfMemory) }

    // Such bytes are not even read.
    ensures large { document_limit < length bytes.now → result ≡ Err (Cause no_document) }
{
    if bytes.len() > DOCUMENT_LIMIT {
        return Err(Failure::Cause(NoDocument));
    }
    match toml::table_from_slice(alloc, bytes) {
        Ok(table) => Ok(table),
        Err(error) if error.is_memory() => Err(Failure::OutOfMemory),
        Err(_) => Err(Failure::Cause(NoDocument)),
    }
}
