//! The keys of what the solver numbers. A key names other things by their numbers, so that it is small and is copied.

use jvm_model::{FieldNo, MethodNo, SiteKind};
use points_to_rules::PlaceNo;

/// The number of the name of a class or of an array.
#[derive(Clone, Copy, Debug, PartialEq, Eq, Hash)]
pub struct ClassNameNo(pub u32);

/// The number of a catch chain: of where the exceptions of a node go.
#[derive(Clone, Copy, Debug, PartialEq, Eq, Hash)]
pub struct CatchChainNo(pub u32);

/// The number of a call.
#[derive(Clone, Copy, Debug, PartialEq, Eq, Hash)]
pub struct CallNo(pub u32);

/// The number of a constraint.
#[derive(Clone, Copy, Debug, PartialEq, Eq, Hash)]
pub struct ConstraintNo(pub u32);

/// An allocation site. `offset` is counted from the first byte of the method's code.
#[derive(Clone, Copy, Debug, PartialEq, Eq, Hash)]
pub struct SiteKey {
    pub kind: SiteKind,
    pub method: Option<MethodNo>,
    pub offset: u32,
    pub class: ClassNameNo,
}

/// A constraint of a place: where each object in its points-to set goes.
#[derive(Clone, Copy, Debug, PartialEq, Eq, Hash)]
pub enum Constraint {
    /// A copy constraint: the other place holds it too.
    CopyTo(PlaceNo),
    /// A filter constraint: the other place holds it too, where it fits the class.
    FilterTo(ClassNameNo, PlaceNo),
    /// A load constraint: what its field holds, the other place holds.
    LoadField(FieldNo, PlaceNo),
    /// A store constraint: what the other place holds, its field holds.
    StoreField(FieldNo, PlaceNo),
    /// A load constraint of arrays: what its elements hold, the other place holds.
    LoadElements(PlaceNo),
    /// A store constraint of arrays: what the other place holds, its elements hold.
    StoreElements(PlaceNo),
    /// It is thrown, where it is a `Throwable`.
    ThrowTo(CatchChainNo),
    /// It is an exception that is thrown on.
    RethrowTo(CatchChainNo),
    /// It selects the target of a call.
    Dispatch(CallNo),
}
