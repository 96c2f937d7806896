//! The handlers that take an exception.

ghost use Rattle.std.specs.Prelude.{◌≡◌, ◌↔◌, Contains, IfNone, IfSome, IsTrue};
ghost use Rattle.program_model.specs.Numbers.{name_at, IsClassNumber};
ghost use Rattle.machine_nodes.specs.NodeSteps.{IsFirstTaking, Takes};
ghost use Rattle.op_model.specs.declared.node.NodeHandler.{NodeHandler as RuleHandler};

use hierarchy::fits;
use jvm_model::ClassNo;
use op_model::NodeHandler;
use program_model::program::Program;

/// The first handler that takes an exception of a class; `None` where none takes it. The class is looked up only where there is a handler.
pub fn first_taking(
    program: &Program,
    handlers: &[NodeHandler],
    class: &[u8],
) -> Option<NodeHandler>
    ensures found { IfSome result (λ handler. IsFirstTaking program.now class.now handlers.now handler) }
    ensures none { IfNone result ((h : RuleHandler) → Contains handlers.now h → Takes program.now h class.now → ⊥) }
{
    if handlers.is_empty() {
        return None;
    }
    let thrown = program.find(class);
    for handler in handlers {
        if takes(program, *handler, thrown, class) {
            return Some(*handler);
        }
    }
    None
}

/// Whether a handler takes an exception of a class, which has this number if it is one of the program. One of a class that is not in the program
/// is taken by a handler of all.
pub fn takes(program: &Program, handler: NodeHandler, thrown: Option<ClassNo>, class: &[u8]) -> bool
    requires { IfSome thrown (λ number. IsClassNumber program.now number.0 × (name_at program.now number.0 ≡ class.now)) }
    ensures { IsTrue result ↔ Takes program.now handler class.now }
{
    program.well_formed();
    let Some(caught) = handler.catch else {
        return true;
    };
    if caught.0 as usize >= program.class_count() {
        return false;
    }
    match thrown {
        Some(number) => program.is_at_or_above(number, caught),
        None => fits(program, program.class_name(caught), class),
    }
}
