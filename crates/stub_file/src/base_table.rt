//! The classes that are there without any stub file, as a table of rows. The modules are its parts, in their order.

ghost use Rattle.std.specs.Prelude.{◌≡◌, ◌++◌, map, IfOk};
ghost use Rattle.stub_file.specs.BaseExceptions.{base_exceptions};
ghost use Rattle.stub_file.specs.BaseLanguage.{base_language};
ghost use Rattle.stub_file.specs.BaseLists.{base_lists};
ghost use Rattle.stub_file.specs.BaseRead.{base_class};
ghost use Rattle.stub_file.specs.BaseStreams.{base_streams};
ghost use Rattle.stub_file.specs.BaseStubs.{base_classes};

mod exceptions;
mod interfaces;
mod language;
mod lists;
mod streams;

use crate::base_row::{BaseClass, all_of};
use jvm_model::StubClass;
use std::alloc::{AllocError, Global};

/// The classes of the library that are there without any stub file: the most common ones of `java/lang`, `java/io` and
/// `java/util`, and exceptions. The name of their file is `-`. It fails only out of memory.
pub fn base_stubs(alloc: Global) -> Result<Vec<StubClass>, AllocError>
    ensures table { IfOk result (λ classes. classes.items ≡ base_classes) }
{
    let mut classes = all_of(alloc, interfaces::rows())?;
    add_language(alloc, &mut classes)?;
    add_rest(alloc, &mut classes)?;
    Ok(classes)
}

/// Adds the classes of `java/lang`.
fn add_language(alloc: Global, classes: &mut Vec<StubClass>) -> Result<(), AllocError>
    ensures { IfOk result (λ _. classes.new.items ≡ classes.old.items ++ base_language) }
{
    add(alloc, classes, language::object_and_string())?;
    add(alloc, classes, language::string_builder())?;
    add(alloc, classes, language::other_classes())
}

/// Adds what follows the classes of `java/lang`.
fn add_rest(alloc: Global, classes: &mut Vec<StubClass>) -> Result<(), AllocError>
    ensures { IfOk result (λ _. classes.new.items ≡ classes.old.items ++ (base_streams ++ (base_lists ++ base_exceptions))) }
{
    add(alloc, classes, streams::rows())?;
    add(alloc, classes, lists::rows())?;
    add(alloc, classes, exceptions::rows())
}

/// Adds the classes that the rows say, in order.
fn add(alloc: Global, classes: &mut Vec<StubClass>, rows: &[BaseClass]) -> Result<(), AllocError>
    ensures { IfOk result (λ _. classes.new.items ≡ classes.old.items ++ map base_class rows.now) }
{
    classes.append(&mut all_of(alloc, rows)?)
}
