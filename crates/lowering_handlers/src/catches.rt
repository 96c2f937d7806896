//! What the entries of a table of handlers take (JVMS 4.7.3).

ghost use Rattle.std.specs.Prelude.{◌≡◌, IfOk};
ghost use Rattle.std.specs.List.{AllZip};
ghost use Rattle.flow_graph.specs.Graphing.{IsCodeOf};
ghost use Rattle.jvm_model.specs.Soundness.{IsSoundClass};
ghost use Rattle.jvm_model.specs.declared.code.Handler.{Handler};
ghost use Rattle.lowering_handlers.specs.Catches.{IsCatchOf, NamesClass};

use jvm_model::lookup::class_name_at;
use jvm_model::{ClassFile, ClassNo, Code};
use program_model::program::Program;
use std::alloc::{AllocError, Global};

/// What an entry of a table of handlers takes.
#[derive(Clone, Copy, Debug, PartialEq, Eq)]
pub enum Catch {
    /// Each object.
    Each,
    OfClass(ClassNo),
    /// Those of a class that is not in the program.
    Unknown,
}

/// What each entry of the table of a method's code takes.
pub fn catches_of(
    alloc: Global,
    program: &Program,
    class: &ClassFile,
    code: &Code,
) -> Result<Vec<Catch>, AllocError>
    requires sound { IsSoundClass class.now }
    requires code { IsCodeOf class.now code.now }
    ensures { IfOk result (λ catches. AllZip (IsCatchOf program.now class.now.pool) code.now.handlers catches.items) }
{
    let mut catches = Vec::new(alloc);
    for handler in code.handlers.as_slice() {
        catches.push(catch_of(program, class, handler.catch_type))?;
    }
    Ok(catches)
}

/// What an entry takes whose type stands at an index of the constant pool, which is 0 for each object.
fn catch_of(program: &Program, class: &ClassFile, catch_type: u16) -> Catch
    ensures { (h : Handler) → h.catch_type ≡ catch_type → NamesClass class.now.pool h → IsCatchOf program.now class.now.pool h result }
{
    program.well_formed();
    if catch_type == 0 {
        return Catch::Each;
    }
    let Some(name) = class_name_at(class.pool.as_slice(), catch_type) else {
        return Catch::Unknown;
    };
    match program.find(name) {
        Some(number) => Catch::OfClass(number),
        None => Catch::Unknown,
    }
}
