//! The fields that a path follows.

ghost use Rattle.std.specs.Prelude.{◌≡◌, ◌↔◌, ◌<◌, [], ◌∷◌, ◌++◌, length, map, IsSome, IfSome, MatchOption};
ghost use Rattle.std.specs.List.{list_any};
ghost use Rattle.access_paths.specs.Followed.{listed, most_fields};
ghost use Rattle.access_paths.specs.Operations.{same_field};
ghost use Rattle.access_paths.specs.Orders.{key_order};
ghost use Rattle.access_paths.specs.Paths.{number_of};

use jvm_model::number::FieldNo;
use std::cmp::Ordering;

/// A path follows so many fields at most.
pub const MOST_FIELDS: usize = 3;

/// The fields that a path follows, one after another: three at most.
#[derive(Clone, Copy)]
pub enum Fields {
    Zero,
    One(FieldNo),
    Two(FieldNo, FieldNo),
    Three(FieldNo, FieldNo, FieldNo),
}

impl Fields {
    /// How many fields there are.
    pub fn len(self) -> usize
        ensures { result ≡ length (listed self) }
    {
        match self {
            Fields::Zero => 0,
            Fields::One(_) => 1,
            Fields::Two(_, _) => 2,
            Fields::Three(_, _, _) => 3,
        }
    }

    /// Whether the field is one of them.
    pub fn contains(self, field: FieldNo) -> bool
        ensures { result ≡ list_any (same_field field) (listed self) }
    {
        match self {
            Fields::Zero => false,
            Fields::One(first) => field == first,
            Fields::Two(first, second) => field == first || field == second,
            Fields::Three(first, second, third) => field == first
                || field == second
                || field == third,
        }
    }

    /// The first field, and those behind it, if there is one.
    pub fn split_first(self) -> Option<(FieldNo, Fields)>
        ensures { MatchOption result (listed self ≡ []) (λ split. listed self ≡ split.0 ∷ listed split.1) }
    {
        match self {
            Fields::Zero => None,
            Fields::One(first) => Some((first, Fields::Zero)),
            Fields::Two(first, second) => Some((first, Fields::One(second))),
            Fields::Three(first, second, third) => Some((first, Fields::Two(second, third))),
        }
    }

    /// The fields with one more before them, if there is room.
    pub fn with_first(self, field: FieldNo) -> Option<Fields>
        ensures room { IsSome result ↔ (length (listed self) < most_fields) }
        ensures fields { IfSome result (λ all. listed all ≡ field ∷ listed self) }
    {
        match self {
            Fields::Zero => Some(Fields::One(field)),
            Fields::One(first) => Some(Fields::Two(field, first)),
            Fields::Two(first, second) => Some(Fields::Three(field, first, second)),
            Fields::Three(_, _, _) => None,
        }
    }

    /// The fields with one more behind them, if there is room.
    pub fn with_last(self, field: FieldNo) -> Option<Fields>
        ensures room { IsSome result ↔ (length (listed self) < most_fields) }
        ensures fields { IfSome result (λ all. listed all ≡ listed self ++ field ∷ []) }
    {
        match self {
            Fields::Zero => Some(Fields::One(field)),
            Fields::One(first) => Some(Fields::Two(first, field)),
            Fields::Two(first, second) => Some(Fields::Three(first, second, field)),
            Fields::Three(_, _, _) => None,
        }
    }

    /// How the fields stand to others: the first number that differs decides, and fewer come before those that go on.
    pub fn compare(self, other: Fields) -> Ordering
        ensures { result ≡ key_order (map number_of (listed self)) (map number_of (listed other)) }
    {
        match self.split_first() {
            None => match other.split_first() {
                None => Ordering::Equal,
                Some(_) => Ordering::Less,
            },
            Some((field, rest)) => match other.split_first() {
                None => Ordering::Greater,
                Some((other_field, other_rest)) => match field.0.cmp(&other_field.0) {
                    Ordering::Less => Ordering::Less,
                    Ordering::Equal => rest.compare(other_rest),
                    Ordering::Greater => Ordering::Greater,
                },
            },
        }
    }
}
