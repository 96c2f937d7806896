//! The slots that a call writes: those of its arguments, and that of its result.

ghost use Rattle.std.specs.Prelude.{◌≡◌};
ghost use Rattle.std.specs.Option.{option_to_list};
ghost use Rattle.machine_nodes.specs.Slots.{argument_slots};
ghost use Rattle.stage_transfer.specs.Calls.{written_by};
ghost use Rattle.stage_transfer.specs.Settings.{among};

use op_model::Call;

/// Whether a call writes a slot.
pub fn is_written_by(call: &Call, slot: u32) -> bool
    ensures { result ≡ among (written_by call.now) slot }
{
    if is_slot(call.result, slot) {
        return true;
    }
    is_argument(call.arguments.as_slice(), slot)
}

/// Whether a slot is that of an argument.
pub fn is_argument(arguments: &[Option<u32>], slot: u32) -> bool
    ensures { result ≡ among (argument_slots arguments.now) slot }
{
    for argument in arguments {
        if is_slot(*argument, slot) {
            return true;
        }
    }
    false
}

/// Whether a slot is this one, if it is there.
fn is_slot(given: Option<u32>, slot: u32) -> bool
    ensures { result ≡ among (option_to_list given) slot }
{
    match given {
        Some(other) => slot == other,
        None => false,
    }
}
