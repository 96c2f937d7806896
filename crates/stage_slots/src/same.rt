//! Which variables are the same.

ghost use Rattle.std.specs.Prelude.{◌≡◌};
ghost use Rattle.stage_transfer.specs.Settings.{same_variable};

use slot_names::Variable;

/// Whether two variables are the same.
pub(crate) fn same_variable(first: Variable, second: Variable) -> bool
    ensures { result ≡ same_variable first second }
{
    match (first, second) {
        (
            Variable::Parameter { method, slot },
            Variable::Parameter {
                method: other,
                slot: other_slot,
            },
        ) => method.0 == other.0 && slot == other_slot,
        (Variable::Parameter { .. }, Variable::At { .. }) => false,
        (Variable::At { .. }, Variable::Parameter { .. }) => false,
        (
            Variable::At {
                method,
                offset,
                slot,
            },
            Variable::At {
                method: other,
                offset: other_offset,
                slot: other_slot,
            },
        ) => method.0 == other.0 && (offset == other_offset && slot == other_slot),
    }
}
