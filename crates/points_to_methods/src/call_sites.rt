//! The calls of nodes, by numbers.

ghost use Rattle.std.specs.Prelude.{◌≡◌, ◌+◌, length, Some, slice_get, IfOk, OnOk};
ghost use Rattle.std.specs.List.{AllZip};
ghost use Rattle.op_model.specs.declared.node.Node.{Node};
ghost use Rattle.points_to_constraints.specs.Items.{CallSite as ItemCallSite};
ghost use Rattle.points_to_rules.specs.WholeMethods.{HasNodeAt};
ghost use Rattle.points_to_constraints.specs.NodeItems.{IsCallSite};
ghost use Rattle.points_to_methods.specs.CallEntries.{GrowsTo, StandsForUnit, StandsForResult, StandForResults};
ghost use Rattle.points_to_methods.specs.Known.{HasNode, IsNamed};
ghost use Rattle.points_to_numbers.specs.Numbered.{Grows};

use crate::{NamedMethod, catch_chain_of, key_of, node_at, slot_place};
use jvm_model::Sequence;
use op_model::{Call, NodeRef};
use points_to_numbers::{CallNo, CallSite, Tables};
use points_to_rules::PlaceNo;
use program_index::index_failure::IndexFailure;
use std::alloc::Global;

/// The number of the call of a node, which is a new one.
pub(crate) fn call_site(
    alloc: Global,
    at: &NamedMethod<'_>,
    node: usize,
    call: &Call,
    tables: &mut Tables,
) -> Result<CallNo, IndexFailure>
    requires known { IsNamed at.now }
    requires there { HasNode at.now node }
    ensures grows { OnOk result (Grows tables.old tables.new) }
    ensures added { IfOk result (λ number. number.0 ≡ length tables.old.calls) }
    ensures one { OnOk result (length tables.new.calls ≡ length tables.old.calls + 1) }
    ensures stands { IfOk result (λ number. (n : Node) → slice_get at.now.method.now.nodes node ≡ Some n
        → (site : ItemCallSite) × IsCallSite at.now.method.now.method at.now.method.now n call.now site × (slice_get tables.new.calls number.0 ≡ Some site)) }
{
    let arguments = argument_places(alloc, at, node, call.arguments.as_slice(), tables)?;
    let results = result_places(alloc, at, node, call.result, tables)?;
    let catch_chain = catch_chain_of(alloc, at, node, tables)?;
    let offset = at.method.nodes.as_slice()[node].offset;
    let number = tables.call(CallSite {
        at: NodeRef {
            method: Some(at.method.method),
            offset,
        },
        kind: call.kind,
        resolved: call.resolved,
        arguments,
        results,
        catch_chain,
    })?;
    Ok(number)
}

/// The place of each unit of the arguments of a call, if it is a reference.
fn argument_places(
    alloc: Global,
    at: &NamedMethod<'_>,
    node: usize,
    arguments: &[Option<u32>],
    tables: &mut Tables,
) -> Result<Sequence<Option<PlaceNo>>, IndexFailure>
    requires known { IsNamed at.now }
    requires there { HasNode at.now node }
    ensures { (n : Node) → slice_get at.now.method.now.nodes node ≡ Some n
        → IfOk result (λ places. GrowsTo (λ numbered. AllZip (StandsForUnit at.now.method.now n numbered) arguments.now places) tables.old tables.new) }
{
    let mut places = Vec::with_capacity(alloc, arguments.len())?;
    for argument in arguments {
        let place = argument_place(at, node, *argument, tables)?;
        places.push(place)?;
    }
    Ok(Sequence::from_vec(places))
}

/// The place of a unit of the arguments, if it is a reference.
fn argument_place(
    at: &NamedMethod<'_>,
    node: usize,
    argument: Option<u32>,
    tables: &mut Tables,
) -> Result<Option<PlaceNo>, IndexFailure>
    requires known { IsNamed at.now }
    requires there { HasNode at.now node }
    ensures { (n : Node) → slice_get at.now.method.now.nodes node ≡ Some n
        → IfOk result (λ place. GrowsTo (λ numbered. StandsForUnit at.now.method.now n numbered argument place) tables.old tables.new) }
{
    let Some(slot) = argument else {
        return Ok(None);
    };
    let place = tables.place(key_of(slot_place(at, node, slot)))?;
    Ok(Some(place))
}

/// The place of the result of a call at each successor of its node; none for a call whose result is no reference.
fn result_places(
    alloc: Global,
    at: &NamedMethod<'_>,
    node: usize,
    target: Option<u32>,
    tables: &mut Tables,
) -> Result<Sequence<PlaceNo>, IndexFailure>
    requires known { IsNamed at.now }
    requires there { HasNode at.now node }
    ensures { (n : Node) → slice_get at.now.method.now.nodes node ≡ Some n
        → IfOk result (λ places. GrowsTo (λ numbered. StandForResults at.now.method.now n numbered target places) tables.old tables.new) }
{
    let mut places = Vec::new(alloc);
    let Some(slot) = target else {
        return Ok(Sequence::from_vec(places));
    };
    let successors = &at.method.nodes.as_slice()[node].successors;
    for offset in successors.as_slice() {
        let place = result_place(at, *offset, slot, tables)?;
        places.push(place)?;
    }
    Ok(Sequence::from_vec(places))
}

/// The place of a slot at the node of an offset.
fn result_place(
    at: &NamedMethod<'_>,
    offset: u32,
    slot: u32,
    tables: &mut Tables,
) -> Result<PlaceNo, IndexFailure>
    requires known { IsNamed at.now }
    requires there { HasNodeAt at.now.method.now offset }
    ensures { IfOk result (λ place. GrowsTo (λ numbered. StandsForResult at.now.method.now slot numbered offset place) tables.old tables.new) }
{
    let Some(next) = node_at(at, offset) else {
        unreachable!();
    };
    let place = tables.place(key_of(slot_place(at, next, slot)))?;
    Ok(place)
}
