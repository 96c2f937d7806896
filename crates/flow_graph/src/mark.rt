//! What is known of an instruction while the code is walked.

ghost use Rattle.std.specs.Prelude.{◌≡◌, ◌||◌, if◌then◌else◌, Some, None};
ghost use Rattle.flow_graph.specs.Graphs.{reason_at};
ghost use Rattle.flow_graph.specs.Walks.{unreached, reached, caught, walked, is_waiting, takes_too_much, goes_over, height_after};

use crate::effect::Effect;
use jvm_model::Reason;

/// The height at which an instruction was reached first; whether it was walked; and what was noted of it: that it takes
/// more units than there are, that the operand stack grows past its limit, that it was reached at another height, and
/// that it goes on past the end of the code.
#[derive(Clone, Copy, Debug, PartialEq, Eq)]
pub struct Mark {
    pub height: Option<u16>,
    pub walked: bool,
    pub under: bool,
    pub over: bool,
    pub merged: bool,
    pub falls: bool,
}

/// The mark of an instruction that was not reached.
pub(crate) fn unreached() -> Mark
    ensures { result ≡ unreached }
{
    Mark {
        height: None,
        walked: false,
        under: false,
        over: false,
        merged: false,
        falls: false,
    }
}

/// Whether an instruction was reached and not yet walked.
pub(crate) fn is_waiting(mark: &Mark) -> bool
    ensures { result ≡ is_waiting mark.now }
{
    mark.height.is_some() && !mark.walked
}

/// The mark of an instruction that is reached at a height.
pub(crate) fn reached(mark: Mark, height: u16) -> Mark
    ensures { result ≡ reached height mark }
{
    match mark.height {
        None => Mark {
            height: Some(height),
            ..mark
        },
        Some(first) => Mark {
            merged: mark.merged || first != height,
            ..mark
        },
    }
}

/// The mark of an instruction at which a handler begins that is reached.
pub(crate) fn caught(mark: Mark, limit: u16) -> Mark
    ensures { result ≡ caught limit mark }
{
    let reached = reached(mark, 1);
    Mark {
        over: reached.over || limit == 0,
        ..reached
    }
}

/// How many units there are after an instruction that was reached at a height, if neither too few were there nor too many
/// are.
pub(crate) fn height_onward(limit: u16, effect: Effect, height: u16, mark: Mark) -> Option<u16>
    ensures { result ≡ (if takes_too_much effect height || goes_over limit effect height mark then None else Some (height_after effect height)) }
{
    let kept = height.checked_sub(effect.pops)?;
    let after = kept.checked_add(effect.pushes)?;
    if mark.over || after > limit {
        return None;
    }
    Some(after)
}

/// The mark of an instruction that is walked at a height, and goes on past the end of the code or does not.
pub(crate) fn walked(mark: Mark, limit: u16, effect: Effect, height: u16, falls: bool) -> Mark
    ensures { result ≡ walked limit effect height falls mark }
{
    let mark = Mark {
        walked: true,
        ..mark
    };
    if height < effect.pops {
        return Mark {
            under: true,
            ..mark
        };
    }
    match height_onward(limit, effect, height, mark) {
        Some(_) => Mark {
            falls: mark.falls || falls,
            ..mark
        },
        None => Mark { over: true, ..mark },
    }
}

/// What is wrong with an instruction: of several reasons the first in their order.
pub(crate) fn reason_at(mark: &Mark) -> Option<Reason>
    ensures { result ≡ reason_at mark.now }
{
    if mark.under {
        return Some(Reason::StackUnder);
    }
    if mark.over {
        return Some(Reason::StackOver);
    }
    if mark.merged {
        return Some(Reason::StackMerge);
    }
    if mark.falls {
        return Some(Reason::FallsOff);
    }
    None
}
