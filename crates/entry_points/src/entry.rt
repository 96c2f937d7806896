//! The entry of a program.

ghost use Rattle.std.specs.Prelude.{ℕ, IfSome, IfNone};
ghost use Rattle.entry_points.specs.Entries.{IsEntry, IsStarting};

use crate::is_coded;
use hierarchy::methods::is_static;
use jvm_model::MethodNo;
use jvm_model::lookup::Signature;
use program_model::program::Program;

/// The method of a class file of this class and this name that a program can begin with: a static one with code that takes an array of strings, or
/// else one without parameters; both have no result. An initialiser is none.
pub fn find_entry(program: &Program, class: &[u8], method: &[u8]) -> Option<MethodNo>
    ensures found { IfSome result (λ entry. IsEntry program.now class.now method.now entry.0) }
    ensures none { IfNone result ((entry : ℕ) → IsEntry program.now class.now method.now entry → ⊥) }
{
    match starting(program, class, method, b"([Ljava/lang/String;)V") {
        Some(entry) => Some(entry),
        None => starting(program, class, method, b"()V"),
    }
}

/// The method of this class, name and descriptor, if a program can begin with it.
fn starting(program: &Program, class: &[u8], method: &[u8], descriptor: &[u8]) -> Option<MethodNo>
    ensures found { IfSome result (λ entry. IsStarting program.now class.now method.now descriptor.now entry.0) }
    ensures none { IfNone result ((entry : ℕ) → IsStarting program.now class.now method.now descriptor.now entry → ⊥) }
{
    program.well_formed();
    if method == b"<clinit>".as_slice() {
        return None;
    }
    let Some(owner) = program.find(class) else {
        return None;
    };
    let signature = Signature {
        name: method,
        descriptor,
    };
    let Some(number) = program.declared_method(owner, signature) else {
        return None;
    };
    if is_static(program, number) && is_coded(program, number) {
        Some(number)
    } else {
        None
    }
}
