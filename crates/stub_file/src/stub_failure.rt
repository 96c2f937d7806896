//! Why a stub file is refused.

ghost use Rattle.std.specs.Prelude.{◌≡◌};

use failure::Failure;
use std::fmt;
use thiserror::Error;
use toml_tables::DOCUMENT_LIMIT;

/// What is wrong with a stub file.
#[derive(Debug, Drop, PartialEq, Eq, Error)]
pub enum StubFault {
    /// The file has more bytes than `DOCUMENT_LIMIT`, is not UTF-8, or is no TOML document.
    #[error("the stub file is no TOML document of at most {DOCUMENT_LIMIT} bytes")]
    BadToml,
    /// A rule is broken: by a key outside the classes (`None`), or first by the class with this number, from 0.
    #[error(fmt = write_breach)]
    BadStub(Option<u32>),
}

/// Why a stub file is not read.
pub type StubFailure = Failure<StubFault>;

/// Writes where a rule is broken: outside the classes, or by the class with this number.
fn write_breach<W: fmt::Write>(class: &Option<u32>, f: &mut fmt::Formatter<W>) -> fmt::Result {
    match class {
        Some(number) => write!(
            f,
            "class {number}, counted from 0, breaks a rule of stub files"
        ),
        None => write!(f, "a key outside the classes breaks a rule of stub files"),
    }
}
