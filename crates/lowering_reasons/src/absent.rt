//! Classes that are not in the program: of a name, or as the elements of an array.

ghost use Rattle.std.specs.Prelude.{◌≡◌, ◌↔◌, option_map, None, IsTrue};
ghost use Rattle.jvm_model.specs.Subtypes.{class_named};
ghost use Rattle.lowering_reasons.specs.Judgements.{judged};
ghost use Rattle.lowering_reasons.specs.Looked.{IsBehindBrackets, IsClassDescriptor, IsOnly, HasSuch};
ghost use Rattle.lowering_reasons.specs.Reasons.{IsElementClass, IsNotThere, Names};

use crate::judgement::JudgedInstruction;
use crate::names::named_class;
use crate::texts::is_array;
use hierarchy::classes::find_class;
use program_model::program::Program;

/// What stands behind all `[` that a name begins with.
fn behind_brackets(name: &[u8]) -> &[u8]
    ensures { IsBehindBrackets name.now result.now }
{
    let mut rest = name;
    while let Some(inner) = rest.strip_prefix(b"[") {
        rest = inner;
    }
    rest
}

/// The class of which a text is the descriptor (JVMS 4.3.2).
fn described_class(text: &[u8]) -> Option<&[u8]>
    ensures { IsOnly (IsClassDescriptor text.now) (option_map (λ class. class.now) result) }
{
    let Some(rest) = text.strip_prefix(b"L") else {
        return None;
    };
    rest.strip_suffix(b";")
}

/// The class of the elements of an array, of their elements, and so on.
fn element_class(name: &[u8]) -> Option<&[u8]>
    ensures { IsOnly (IsElementClass name.now) (option_map (λ class. class.now) result) }
{
    if !is_array(name) {
        return None;
    }
    described_class(behind_brackets(name))
}

/// Whether no class of the program has the name.
fn is_missing(program: &Program, name: &[u8]) -> bool
    ensures { IsTrue result ↔ (class_named program.now name.now ≡ None) }
{
    program.well_formed();
    find_class(program, name).is_none()
}

/// Whether a class is not in the program, or the class of the elements of an array is not.
fn is_not_there(program: &Program, name: &[u8]) -> bool
    ensures { IsTrue result ↔ IsNotThere program.now name.now }
{
    if !is_array(name) {
        return is_missing(program, name);
    }
    match element_class(name) {
        Some(class) => is_missing(program, class),
        None => false,
    }
}

/// Whether the instruction names a class, or an array of a class, that is not in the program.
pub(crate) fn names_missing(instruction: JudgedInstruction<'_>) -> bool
    ensures { IsTrue result ↔ HasSuch (Names (judged instruction.entry)) (IsNotThere instruction.entry.program.now) }
{
    match named_class(instruction) {
        Some(class) => is_not_there(instruction.program, class),
        None => false,
    }
}
