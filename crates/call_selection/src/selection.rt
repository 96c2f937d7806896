//! What a call of a resolved method selects by the class of an object.

ghost use Rattle.std.specs.Prelude.{◌≡◌, Some};
ghost use Rattle.machine_bytecode.specs.Machine.{selecting_class};
ghost use Rattle.jvm_model.specs.declared.site.Site.{Site};
ghost use Rattle.program_model.specs.Numbers.{IsMethodNumber};
ghost use Rattle.call_selection.specs.OnlyAnswers.{IsOnlyAnswer};
ghost use Rattle.points_to_rules.specs.Calls.{SelectsAs, SelectsFor};

use hierarchy::classes::find_class;
use hierarchy::fits;
use hierarchy::select::select;
use jvm_model::grammar::is_array;
use jvm_model::{MethodNo, Reason};
use op_model::CallKind;
use program_model::program::Program;

/// The class from which the method is selected that a call on an object of a class goes to: an array has the methods of java/lang/Object.
fn selecting_class(class: &[u8]) -> &[u8]
    ensures { result.now ≡ selecting_class class.now }
{
    if is_array(class) {
        return b"java/lang/Object";
    }
    class
}

/// What a call of a resolved method selects by the class of an object, if it may be made on it.
pub fn selected_from(
    program: &Program,
    resolved: MethodNo,
    class: &[u8],
    interface: bool,
) -> Option<Result<MethodNo, Reason>>
    requires resolved { IsMethodNumber program.now resolved.0 }
    ensures { (s : Site) → class.now ≡ s.class → IsOnlyAnswer (SelectsAs interface program.now resolved s) result }
{
    program.well_formed();
    if !fits(
        program,
        program.class_name(program.method(resolved).class),
        class,
    ) {
        return None;
    }
    let Some(receiver) = find_class(program, selecting_class(class)) else {
        return None;
    };
    Some(select(program, resolved, receiver, interface))
}

/// What a call of a resolved method selects by the class of an object, if it selects by its object and may be made on this one.
pub fn selected_for(
    program: &Program,
    kind: CallKind,
    resolved: MethodNo,
    class: &[u8],
) -> Option<Result<MethodNo, Reason>>
    requires resolved { IsMethodNumber program.now resolved.0 }
    ensures { (s : Site) → class.now ≡ s.class → IsOnlyAnswer (SelectsFor kind program.now resolved s) result }
{
    match kind {
        CallKind::Virtual => selected_from(program, resolved, class, false),
        CallKind::Special => None,
        CallKind::Static => None,
        CallKind::Interface => selected_from(program, resolved, class, true),
    }
}
