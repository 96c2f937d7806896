//! Where the exceptions of a node go: to the first handler that takes them, or else on to the callers.

ghost use Rattle.std.specs.Prelude.{◌≡◌, length, Some, slice_get, IfOk, OnOk};
ghost use Rattle.std.specs.List.{AllZip};
ghost use Rattle.op_model.specs.declared.node.Node.{Node};
ghost use Rattle.points_to_rules.specs.WholeMethods.{HasNodeAt};
ghost use Rattle.points_to_methods.specs.Fixed.{holder_of};
ghost use Rattle.points_to_methods.specs.Known.{HasNode, IsNamed};
ghost use Rattle.points_to_methods.specs.CatchChains.{StandsForCatchClause, StandsForCatchChain};
ghost use Rattle.points_to_rules.specs.Facts.{thrown_by};
ghost use Rattle.points_to_rules.specs.Rules.{IsSlotAt};
ghost use Rattle.points_to_numbers.specs.Numbered.{Grows};

use crate::adding::{FixedPlace, key_of};
use crate::named::{NamedMethod, node_at, slot_place};
use jvm_model::Sequence;
use op_model::NodeHandler;
use points_to_numbers::{CatchChain, CatchChainNo, CatchClause, Tables};
use points_to_rules::PlaceNo;
use program_index::index_failure::IndexFailure;
use std::alloc::Global;

/// The number of where the exceptions of a node go.
pub fn catch_chain_of(
    alloc: Global,
    at: &NamedMethod<'_>,
    node: usize,
    tables: &mut Tables,
) -> Result<CatchChainNo, IndexFailure>
    requires known { IsNamed at.now }
    requires there { HasNode at.now node }
    ensures grows { OnOk result (Grows tables.old tables.new) }
    ensures calls { OnOk result (length tables.new.calls ≡ length tables.old.calls) }
    ensures stands { IfOk result (λ number. (n : Node) → slice_get at.now.method.now.nodes node ≡ Some n → StandsForCatchChain at.now.method.now n tables.new number.0) }
{
    let catch_clauses = catch_clauses_of(alloc, at, node, tables)?;
    let outside = outside_of(at, tables)?;
    let number = tables.catch_chain(CatchChain {
        catch_clauses,
        outside,
    })?;
    Ok(number)
}

/// The place of what the method throws.
fn outside_of(at: &NamedMethod<'_>, tables: &mut Tables) -> Result<PlaceNo, IndexFailure>
    ensures grows { OnOk result (Grows tables.old tables.new) }
    ensures calls { OnOk result (length tables.new.calls ≡ length tables.old.calls) }
    ensures stands { IfOk result (λ place. slice_get tables.new.holders place.0 ≡ Some (thrown_by at.now.method.now.method)) }
{
    let place = tables.place(key_of(FixedPlace::Thrown(at.method.method)))?;
    Ok(place)
}

/// A catch clause for each handler of a node.
fn catch_clauses_of(
    alloc: Global,
    at: &NamedMethod<'_>,
    node: usize,
    tables: &mut Tables,
) -> Result<Sequence<CatchClause>, IndexFailure>
    requires known { IsNamed at.now }
    requires there { HasNode at.now node }
    ensures grows { OnOk result (Grows tables.old tables.new) }
    ensures calls { OnOk result (length tables.new.calls ≡ length tables.old.calls) }
    ensures stands { IfOk result (λ catch_clauses. (n : Node) → slice_get at.now.method.now.nodes node ≡ Some n → AllZip (StandsForCatchClause at.now.method.now tables.new) n.handlers catch_clauses) }
{
    let handlers = &at.method.nodes.as_slice()[node].handlers;
    let mut catch_clauses = Vec::new(alloc);
    for handler in handlers.as_slice() {
        let catch_clause = catch_clause_of(at, *handler, tables)?;
        catch_clauses.push(catch_clause)?;
    }
    Ok(Sequence::from_vec(catch_clauses))
}

/// The catch clause of a handler: what it takes goes to the first unit of the stack where it begins.
fn catch_clause_of(
    at: &NamedMethod<'_>,
    handler: NodeHandler,
    tables: &mut Tables,
) -> Result<CatchClause, IndexFailure>
    requires known { IsNamed at.now }
    requires there { HasNodeAt at.now.method.now handler.target }
    ensures grows { OnOk result (Grows tables.old tables.new) }
    ensures calls { OnOk result (length tables.new.calls ≡ length tables.old.calls) }
    ensures stands { IfOk result (λ catch_clause. StandsForCatchClause at.now.method.now tables.new handler catch_clause) }
{
    let to = tables.place(key_of(handler_place(at, handler)))?;
    Ok(CatchClause { handler, to })
}

/// The place of what a handler takes: the first unit of the stack where it begins.
pub(crate) fn handler_place(at: &NamedMethod<'_>, handler: NodeHandler) -> FixedPlace
    requires known { IsNamed at.now }
    requires there { HasNodeAt at.now.method.now handler.target }
    ensures { IsSlotAt at.now.method.now handler.target at.now.method.now.slots (holder_of result) }
{
    let Some(next) = node_at(at, handler.target) else {
        unreachable!();
    };
    slot_place(at, next, at.method.slots)
}
