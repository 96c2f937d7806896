//! Why a property file is not read.

ghost use Rattle.std.specs.Prelude.{◌≡◌, Some, None, IfOk, IfErr};
ghost use Rattle.property_file.specs.Reading.{NamesKey};

use failure::Failure;
use jvm_model::Name;
use std::alloc::Global;
use thiserror::Error;
use toml_tables::DOCUMENT_LIMIT;

/// What is wrong with a property file.
#[derive(Debug, Drop, Error)]
pub enum PropertyFault {
    /// The file has more bytes than `DOCUMENT_LIMIT`, is not UTF-8, or is no TOML document.
    #[error("the property file is no TOML document of at most {DOCUMENT_LIMIT} bytes")]
    BadToml,
    /// A rule of this key is broken, and none of a key before it in the order of the format; or, where each
    /// key of the format is as it should be, this is the least of the other keys.
    #[error("the key {} breaks a rule of property files", .0.as_str())]
    BadProperty(Name),
}

/// Why a property file is not read.
pub type PropertyFailure = Failure<PropertyFault>;

/// The refusal that names a key. Where memory runs out it is that.
pub(crate) fn refusal_of(alloc: Global, key: &str) -> PropertyFailure
    ensures { NamesKey key.now result }
{
    match String::from_str(alloc, key) {
        Ok(text) => Failure::Cause(PropertyFault::BadProperty(Name::from_string(text))),
        Err(_) => Failure::OutOfMemory,
    }
}

/// The value of a key, which is refused where there is none.
pub(crate) fn required<T: Drop>(
    alloc: Global,
    key: &str,
    value: Option<T>,
) -> Result<T, PropertyFailure>
    ensures found { IfOk result (λ v. value ≡ Some v) }
    ensures none { IfErr result (λ e. (value ≡ None) × NamesKey key.now e) }
{
    match value {
        Some(value) => Ok(value),
        None => Err(refusal_of(alloc, key)),
    }
}
