//! The units of a call's arguments.

ghost use Rattle.std.specs.Prelude.{◌≡◌, ◌↔◌, IsTrue};
ghost use Rattle.stage_transfer.specs.Calls.{passed};
ghost use Rattle.stage_transfer.specs.Settings.{among};
ghost use Rattle.stage_views.specs.Views.{entering_of};
ghost use Rattle.stage_calls.specs.Units.{HasSlots};

use stage_views::{Entering, is_argument};

/// There are so many slots.
const MOST_UNITS: usize = 4_294_967_296;

/// Whether a call has no more units of arguments than there are slots. Those of class files have 256 at most.
pub fn has_slots(by: Entering<'_>) -> bool
    ensures { IsTrue result ↔ HasSlots (entering_of by.entry) }
{
    match by {
        Entering::Call(call) => call.arguments.len() <= MOST_UNITS,
        Entering::Trigger => true,
    }
}

/// Whether a slot is passed.
pub(crate) fn is_passed(by: Entering<'_>, slot: u32) -> bool
    ensures { result ≡ among (passed (entering_of by.entry)) slot }
{
    match by {
        Entering::Call(call) => is_argument(call.arguments.as_slice(), slot),
        Entering::Trigger => false,
    }
}
