//! The words of a stub: results and arguments of a call.

ghost use Rattle.std.specs.Prelude.{◌≡◌, ◌≤◌, IfOk};
ghost use Rattle.std.specs.Fmt.{decimal};
ghost use Rattle.toml_tables.specs.Tables.{Finds};
ghost use Rattle.stub_file.specs.StubReading.{IsPlainWord};
ghost use Rattle.stub_file.specs.StubSpelling.{SpellsArgument, SpellsResult, SpellsText};

use crate::spelled::Spelled;
use jvm_model::{StubArgument, StubResult};
use std::alloc::{AllocError, Global};
use toml::Value;
use toml_tables::bytes_of;

/// A word that names an argument.
impl Spelled for StubArgument {
    ghost spells = { SpellsText SpellsArgument };

    fn read(_alloc: Global, value: &Value) -> Result<Option<StubArgument>, AllocError> {
        match value.as_str() {
            Some(text) => Ok(argument_of(text)),
            None => Ok(None),
        }
    }
}

/// A word that names a result.
impl Spelled for StubResult {
    ghost spells = { SpellsText SpellsResult };

    fn read(alloc: Global, value: &Value) -> Result<Option<StubResult>, AllocError> {
        match value.as_str() {
            Some(text) => result_of(alloc, text),
            None => Ok(None),
        }
    }
}

/// The result that a word names.
fn result_of(alloc: Global, text: &str) -> Result<Option<StubResult>, AllocError>
    ensures { IfOk result (Finds (SpellsResult text.now)) }
{
    if let Some(plain) = plain_result_of(text) {
        return Ok(Some(plain));
    }
    if let Some(argument) = argument_of(text) {
        return Ok(Some(StubResult::Given(argument)));
    }
    match text.strip_prefix("new:") {
        Some(name) => Ok(Some(StubResult::New(bytes_of(alloc, name)?))),
        None => Ok(None),
    }
}

/// The result that is one word alone.
fn plain_result_of(text: &str) -> Option<StubResult>
    ensures { Finds (IsPlainWord text.now) result }
{
    match text {
        "prim" => Some(StubResult::Primitive),
        "void" => Some(StubResult::Void),
        "null" => Some(StubResult::Null),
        "kept" => Some(StubResult::Kept),
        _ => None,
    }
}

/// The argument that a word names.
fn argument_of(text: &str) -> Option<StubArgument>
    ensures { Finds (SpellsArgument text.now) result }
{
    if text == "this" {
        return Some(StubArgument::This);
    }
    let digits = text.strip_prefix("arg")?;
    Some(StubArgument::Argument(number_of(digits)?))
}

/// The number from 1 to 255 that digits write, with no zero in front.
fn number_of(digits: &str) -> Option<u8>
    ensures { Finds (λ number. (1 ≤ number) × (number ≤ 255) × (digits.now ≡ decimal number)) result }
{
    match digits.as_bytes() {
        [first, ..] if *first > b'0' => u8::from_str_radix(digits, 10).ok(),
        _ => None,
    }
}
