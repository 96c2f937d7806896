//! The slots that get other values.

ghost use Rattle.std.specs.Prelude.{◌≡◌, map};
ghost use Rattle.stage_flow.specs.Shapes.{written_of};
ghost use Rattle.stage_transfer.specs.Changes.{slots_go};
ghost use Rattle.stage_transfer.specs.Operations.{target_of};
ghost use Rattle.stage_transfer.specs.Settings.{among};

use access_paths::Root;
use op_model::{Call, Move};
use stage_views::is_written_by;

/// The slots that get other values.
#[derive(Clone, Copy)]
pub enum Written<'c> {
    One(u32),
    Two(u32, u32),
    /// The targets of moves.
    Targets(&'c [Move]),
    /// The arguments of a call, and its result.
    ByCall(&'c Call),
    /// Those from this one on.
    From(u32),
    All,
}

impl Written<'_> {
    /// Whether the slot is one of them.
    pub fn has(&self, slot: u32) -> bool
        ensures { result ≡ written_of self.now slot }
    {
        match self {
            Written::One(only) => slot == *only,
            Written::Two(first, second) => slot == *first || slot == *second,
            Written::Targets(moves) => is_target(moves, slot),
            Written::ByCall(call) => is_written_by(call, slot),
            Written::From(first) => *first <= slot,
            Written::All => true,
        }
    }

    /// Whether the root is one of them.
    pub fn has_root(&self, root: Root) -> bool
        ensures { result ≡ slots_go (written_of self.now) root }
    {
        match root {
            Root::Slot(slot) => self.has(slot),
            Root::Static(_) => false,
            Root::Returned => false,
            Root::Thrown => false,
        }
    }
}

/// Whether a move writes the slot.
fn is_target(moves: &[Move], slot: u32) -> bool
    ensures { result ≡ among (map target_of moves.now) slot }
{
    for step in moves {
        if slot == step.target {
            return true;
        }
    }
    false
}
