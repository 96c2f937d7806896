//! A method whose slots have names, and the names at its nodes. A node is named by its place among those of the method.

ghost use Rattle.std.specs.Prelude.{◌≡◌, ◌+◌, IfOk, IfSome};
ghost use Rattle.points_to_methods.specs.Fixed.{holder_of};
ghost use Rattle.points_to_methods.specs.Known.{HasNode, IsNamed, names_at};
ghost use Rattle.points_to_methods.specs.Slots.{slot_holder};
ghost use Rattle.slot_names.specs.NodePlaces.{IsPlaceOf};

use crate::adding::FixedPlace;
use failure::Failure;
use op_model::LoweredMethod;
use program_index::index_failure::{IndexFailure, TooMany};
use program_model::program::Program;
use slot_names::{Names, place_number, place_of};

/// A method of a program, and the variables of its slots.
#[derive(Clone, Copy)]
pub struct NamedMethod<'a> {
    pub program: &'a Program,
    pub method: &'a LoweredMethod,
    pub names: &'a Names,
}

/// The place of what a slot holds at a node.
pub fn slot_place(at: &NamedMethod<'_>, node: usize, slot: u32) -> FixedPlace
    requires known { IsNamed at.now }
    requires there { HasNode at.now node }
    ensures { holder_of result ≡ slot_holder (names_at at.now) node slot }
{
    let node = place_number(at.method, node);
    FixedPlace::Variable(at.names.variable(node, slot))
}

/// How many slots a method has. The failure is `TooMany` where there are 2^32 of them.
pub(crate) fn slot_count(method: &LoweredMethod) -> Result<u32, IndexFailure>
    ensures { IfOk result (λ count. count ≡ method.now.slots + method.now.stack) }
{
    match method.slots.checked_add(method.stack) {
        Some(count) => Ok(count),
        None => Err(Failure::Cause(TooMany)),
    }
}

/// Whether a node is a merge point.
pub(crate) fn is_merge(at: &NamedMethod<'_>, node: usize) -> bool
    requires known { IsNamed at.now }
    requires there { HasNode at.now node }
    ensures { result ≡ (names_at at.now).merges node }
{
    let node = place_number(at.method, node);
    at.names.is_merge(node)
}

/// The place of the node at an offset, if there is one.
pub fn node_at(at: &NamedMethod<'_>, offset: u32) -> Option<usize>
    requires { IsNamed at.now }
    ensures place { IsPlaceOf at.now.method.now offset result }
    ensures within { IfSome result (λ node. HasNode at.now node) }
{
    place_of(at.method, offset)
}
