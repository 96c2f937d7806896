//! The changes that operations, calls and throws make.

ghost use Rattle.std.specs.Prelude.{◌≡◌, [], ◌∷◌};
ghost use Rattle.machine_nodes.specs.Slots.{argument_slots};
ghost use Rattle.op_model.specs.declared.lowered.LoweredMethod.{LoweredMethod as RuleMethod};
ghost use Rattle.op_model.specs.declared.node.Node.{Node as RuleNode};
ghost use Rattle.stage_flow.specs.Shapes.{copy_of, hand_of, loading, root_copy, Makes};
ghost use Rattle.stage_transfer.specs.Calls.{giving, written_by};
ghost use Rattle.stage_transfer.specs.Changes.{copying, writing};
ghost use Rattle.stage_transfer.specs.Exceptions.{catching, thrown_root, unwinding};
ghost use Rattle.stage_transfer.specs.Operations.{assigning, receiving, returning, storing_static};
ghost use Rattle.stage_transfer.specs.Settings.{Setting};

use crate::change::PathChange;
use crate::gain::Gain;
use crate::written::Written;
use access_paths::Root;
use jvm_model::FieldNo;
use op_model::{Call, Move};

/// A slot is written.
pub fn writing_one<'c>(slot: u32) -> PathChange<'c>
    ensures { (w : Setting) (l : RuleMethod) (n : RuleNode) → Makes w l n result (writing w l n (slot ∷ [])) }
{
    PathChange {
        written: Written::One(slot),
        leaving: None,
        gain: Gain::Nothing,
    }
}

/// Two slots are written.
pub fn writing_two<'c>(first: u32, second: u32) -> PathChange<'c>
    ensures { (w : Setting) (l : RuleMethod) (n : RuleNode) → Makes w l n result (writing w l n (first ∷ second ∷ [])) }
{
    PathChange {
        written: Written::Two(first, second),
        leaving: None,
        gain: Gain::Nothing,
    }
}

/// The slots of a call are written.
pub fn writing_call(call: &Call) -> PathChange<'_>
    ensures { (w : Setting) (l : RuleMethod) (n : RuleNode) → Makes w l n result (writing w l n (written_by call.now)) }
{
    PathChange {
        written: Written::ByCall(call),
        leaving: None,
        gain: Gain::Nothing,
    }
}

/// Moves are made.
pub fn assigning(moves: &[Move]) -> PathChange<'_>
    ensures { (w : Setting) (l : RuleMethod) (n : RuleNode) → Makes w l n result (assigning w l n moves.now) }
{
    PathChange {
        written: Written::Targets(moves),
        leaving: None,
        gain: Gain::Moves(moves),
    }
}

/// A field is loaded.
pub fn loading<'c>(object: u32, field: FieldNo, target: u32) -> PathChange<'c>
    ensures { (w : Setting) (l : RuleMethod) (n : RuleNode) → Makes w l n result (loading w l n object field target) }
{
    PathChange {
        written: Written::Two(object, target),
        leaving: None,
        gain: Gain::Load {
            object,
            field,
            target,
        },
    }
}

/// A static field is loaded.
pub fn loading_static<'c>(field: FieldNo, target: u32) -> PathChange<'c>
    ensures { (w : Setting) (l : RuleMethod) (n : RuleNode)
        → Makes w l n result (copying w l n (target ∷ []) (root_copy (Root.Static field) (Root.Slot target))) }
{
    PathChange {
        written: Written::One(target),
        leaving: None,
        gain: Gain::Copy {
            from: Root::Static(field),
            to: Root::Slot(target),
        },
    }
}

/// A static field is stored to.
pub fn storing_static<'c>(field: FieldNo, value: u32) -> PathChange<'c>
    ensures { (w : Setting) (l : RuleMethod) (n : RuleNode) → Makes w l n result (storing_static w l n field value) }
{
    PathChange {
        written: Written::One(value),
        leaving: Some(Root::Static(field)),
        gain: Gain::Copy {
            from: Root::Slot(value),
            to: Root::Static(field),
        },
    }
}

/// A value is returned, if there is one.
pub fn returning<'c>(value: Option<u32>) -> PathChange<'c>
    ensures { (w : Setting) (l : RuleMethod) (n : RuleNode) → Makes w l n result (returning value) }
{
    PathChange {
        written: Written::All,
        leaving: Some(Root::Returned),
        gain: copy_from(value, Root::Returned),
    }
}

/// What was returned to a call is received.
pub fn receiving(call: &Call) -> PathChange<'_>
    ensures { (w : Setting) (l : RuleMethod) (n : RuleNode)
        → Makes w l n result (receiving w l n (argument_slots call.now.arguments) call.now.result) }
{
    PathChange {
        written: Written::ByCall(call),
        leaving: Some(Root::Returned),
        gain: hand_from(Root::Returned, call.result),
    }
}

/// A described method gives an argument.
pub fn giving(call: &Call, argument: u32) -> PathChange<'_>
    ensures { (w : Setting) (l : RuleMethod) (n : RuleNode) → Makes w l n result (giving w l n call.now argument) }
{
    PathChange {
        written: Written::ByCall(call),
        leaving: None,
        gain: hand_from(Root::Slot(argument), call.result),
    }
}

/// A handler takes what is thrown, in the first unit of the operand stack: what stood in a slot, or what was thrown into the frame.
pub fn catching<'c>(locals: u32, value: Option<u32>) -> PathChange<'c>
    ensures { (w : Setting) (l : RuleMethod) (n : RuleNode) → locals ≡ l.slots → Makes w l n result (catching w l n value) }
{
    PathChange {
        written: Written::From(locals),
        leaving: Some(Root::Thrown),
        gain: Gain::Hand {
            from: thrown_root(value),
            target: locals,
        },
    }
}

/// The method ends by what is thrown: what stood in a slot, or what was thrown into the frame.
pub fn unwinding<'c>(value: Option<u32>) -> PathChange<'c>
    ensures { (w : Setting) (l : RuleMethod) (n : RuleNode) → Makes w l n result (unwinding value) }
{
    match value {
        None => PathChange {
            written: Written::All,
            leaving: None,
            gain: Gain::Nothing,
        },
        Some(value) => PathChange {
            written: Written::All,
            leaving: Some(Root::Thrown),
            gain: Gain::Copy {
                from: Root::Slot(value),
                to: Root::Thrown,
            },
        },
    }
}

/// The root from which a handler gets the object.
fn thrown_root(value: Option<u32>) -> Root
    ensures { result ≡ thrown_root value }
{
    match value {
        None => Root::Thrown,
        Some(value) => Root::Slot(value),
    }
}

/// The slot, if there is one, gets what the root held.
fn hand_from<'c>(from: Root, target: Option<u32>) -> Gain<'c>
    ensures { result ≡ hand_of from target }
{
    match target {
        None => Gain::Nothing,
        Some(target) => Gain::Hand { from, target },
    }
}

/// The root gets what the slot held, if there is one.
fn copy_from<'c>(value: Option<u32>, to: Root) -> Gain<'c>
    ensures { result ≡ copy_of value to }
{
    match value {
        None => Gain::Nothing,
        Some(value) => Gain::Copy {
            from: Root::Slot(value),
            to,
        },
    }
}
