//! Paths that are handed on to a slot that is written.

ghost use Rattle.std.specs.Prelude.{◌≡◌, List};
ghost use Rattle.std.specs.List.{list_any};
ghost use Rattle.op_model.specs.declared.lowered.LoweredMethod.{LoweredMethod as RuleMethod};
ghost use Rattle.op_model.specs.declared.node.Node.{Node as RuleNode};
ghost use Rattle.op_model.specs.declared.op.Move.{Move as NodeMove};
ghost use Rattle.stage_flow.specs.Shapes.{brings, is_handed, moves_on, reaches};
ghost use Rattle.stage_transfer.specs.Settings.{Setting};

use crate::alike::reaches;
use crate::gain::Gain;
use access_paths::{Path, PathSet, Root};
use op_model::{Move, Source};
use stage_views::NodeSlots;

/// Whether a path is handed on to a slot: it is one of a root from which the slot gets its value, or of a slot of that root's variable.
pub fn is_handed<V: NodeSlots>(slots: &V, gain: &Gain<'_>, set: &PathSet, path: &Path) -> bool
    ensures { (w : Setting) (l : RuleMethod) (n : RuleNode) → V.knows slots.now w l n → result ≡ is_handed w l n gain.now set.now path.now }
{
    match gain {
        Gain::Nothing => false,
        Gain::Copy { .. } => false,
        Gain::Hand { from, .. } => {
            reaches(slots, *from, path.root()) && set.contains(&path.with_root(*from))
        }
        Gain::Moves(moves) => is_moved(slots, moves, set, path),
        Gain::Load { .. } => false,
    }
}

/// Whether one of the moves hands it on.
fn is_moved<V: NodeSlots>(slots: &V, moves: &[Move], set: &PathSet, path: &Path) -> bool
    ensures { (w : Setting) (l : RuleMethod) (n : RuleNode) → V.knows slots.now w l n
        → result ≡ list_any (λ (m : NodeMove). moves_on w l n moves.now set.now path.now m.source m.target) moves.now }
{
    for step in moves {
        if moves_on(slots, moves, set, path, *step) {
            return true;
        }
    }
    false
}

/// Whether this move hands it on: it is one of a slot of the path's variable, and the path gets to its target.
fn moves_on<V: NodeSlots>(slots: &V, moves: &[Move], set: &PathSet, path: &Path, step: Move) -> bool
    ensures { (w : Setting) (l : RuleMethod) (n : RuleNode) → V.knows slots.now w l n
        → result ≡ moves_on w l n moves.now set.now path.now step.source step.target }
{
    match step.source {
        Source::Slot(slot) => {
            reaches(slots, Root::Slot(slot), path.root())
                && is_brought(moves, set, path, step.target)
        }
        Source::Null => false,
        Source::Primitive => false,
    }
}

/// Whether the target gets the path.
fn is_brought(moves: &[Move], set: &PathSet, path: &Path, target: u32) -> bool
    ensures { result ≡ list_any (λ (m : NodeMove). brings set.now path.now target m.source m.target) moves.now }
{
    for step in moves {
        if brings(set, path, target, *step) {
            return true;
        }
    }
    false
}

/// Whether this move brings it there.
fn brings(set: &PathSet, path: &Path, target: u32, step: Move) -> bool
    ensures { result ≡ brings set.now path.now target step.source step.target }
{
    match step.source {
        Source::Slot(slot) => {
            target == step.target && set.contains(&path.with_root(Root::Slot(slot)))
        }
        Source::Null => false,
        Source::Primitive => false,
    }
}
