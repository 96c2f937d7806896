//! What is read of a numbered call: the places of its arguments and of its results.

ghost use Rattle.std.specs.Prelude.{◌≡◌, length, Some, slice_get};
ghost use Rattle.points_to_calls.specs.Parts.{unit_in};
ghost use Rattle.points_to_constraints.specs.Items.{CallSite as ItemCallSite};
ghost use Rattle.points_to_numbers.specs.Numbered.{IsNumbered, IsUnitAt};

use points_to_numbers::{CallNo, Tables};
use points_to_rules::PlaceNo;

/// How many units of arguments a call has.
pub(crate) fn argument_count(tables: &Tables, call: CallNo) -> usize
    requires { IsNumbered tables.now.calls call.0 }
    ensures { (site : ItemCallSite) → slice_get tables.now.calls call.0 ≡ Some site → result ≡ length site.arguments }
{
    tables.call_of(call).arguments.len()
}

/// How many places the result of a call has.
pub(crate) fn result_count(tables: &Tables, call: CallNo) -> usize
    requires { IsNumbered tables.now.calls call.0 }
    ensures { (site : ItemCallSite) → slice_get tables.now.calls call.0 ≡ Some site → result ≡ length site.results }
{
    tables.call_of(call).results.len()
}

/// The place of a unit of the arguments, if it is that of a reference.
pub(crate) fn argument_of(tables: &Tables, call: CallNo, unit: usize) -> Option<PlaceNo>
    requires { IsNumbered tables.now.calls call.0 }
    ensures { (site : ItemCallSite) → slice_get tables.now.calls call.0 ≡ Some site → IsUnitAt tables.now result (unit_in site.arguments unit) }
{
    match tables.call_of(call).arguments.as_slice().get(unit) {
        Some(place) => *place,
        None => None,
    }
}

/// The place of the result at one of the call's successors.
pub(crate) fn result_of(tables: &Tables, call: CallNo, number: usize) -> Option<PlaceNo>
    requires { IsNumbered tables.now.calls call.0 }
    ensures { (site : ItemCallSite) → slice_get tables.now.calls call.0 ≡ Some site → IsUnitAt tables.now result (slice_get site.results number) }
{
    match tables.call_of(call).results.as_slice().get(number) {
        Some(place) => Some(*place),
        None => None,
    }
}
