//! The first of two failures.

ghost use Rattle.std.specs.Prelude.{◌≡◌};
ghost use Rattle.edge_checker.specs.Conditions.{number_of};
ghost use Rattle.edge_checker.specs.Failures.{IsLesser, IsLesserOf};

use crate::rejected::{EdgeCondition, Rejected};

/// The lesser of two failures, where there are any.
pub(crate) fn least(one: Option<Rejected>, other: Option<Rejected>) -> Option<Rejected>
    ensures { IsLesserOf one other result }
{
    match one {
        None => match other {
            None => None,
            Some(also) => Some(also),
        },
        Some(first) => match other {
            None => Some(first),
            Some(also) => Some(lesser(first, also)),
        },
    }
}

/// The lesser of two: by the condition, and then by the line.
fn lesser(one: Rejected, other: Rejected) -> Rejected
    ensures { IsLesser one other result }
{
    let by_condition = number_of(one.condition);
    let also = number_of(other.condition);
    if by_condition < also {
        return one;
    }
    if also < by_condition {
        return other;
    }
    if one.line <= other.line { one } else { other }
}

/// The number of a condition.
fn number_of(condition: EdgeCondition) -> u8
    ensures { result ≡ number_of condition }
{
    match condition {
        EdgeCondition::Start => 4,
        EdgeCondition::Flow => 5,
        EdgeCondition::Enter => 6,
        EdgeCondition::Leave => 7,
        EdgeCondition::Error => 8,
    }
}
