//! Initialisers that a node may start (JVMS 5.5).

ghost use Rattle.std.specs.Prelude.{◌≡◌, Some, slice_get, OnOk};
ghost use Rattle.op_model.specs.declared.node.Node.{Node};
ghost use Rattle.points_to_constraints.specs.Items.{CatchChain};
ghost use Rattle.points_to_constraints.specs.NodeItems.{TriggerItem};
ghost use Rattle.points_to_methods.specs.Known.{HasNode, IsNamed};
ghost use Rattle.points_to_numbers.specs.Numbered.{IsNumbered};
ghost use Rattle.points_to_numbers.specs.Steps.{Makes};
ghost use Rattle.points_to_methods.specs.Initiated.{IsInitiated};
ghost use Rattle.points_to_methods.specs.Started.{IsStarted};

use crate::{NamedMethod, catch_chain_of};
use entry_points::coded_initialisers;
use jvm_model::MethodNo;
use points_to_numbers::{CatchChainNo, Constraint, Item, Work};
use points_to_rules::Place;
use program_index::index_failure::IndexFailure;

/// Adds that the initialisers run that a node may start; what they throw is kept, and is thrown on at the node.
pub(crate) fn trigger_items(
    at: &NamedMethod<'_>,
    node: usize,
    work: &mut Work,
) -> Result<(), IndexFailure>
    requires known { IsNamed at.now }
    requires there { HasNode at.now node }
    ensures { (n : Node) → slice_get at.now.method.now.nodes node ≡ Some n
        → OnOk result (Makes work.old.tables work.new.tables (TriggerItem at.now.program.now at.now.method.now.method at.now.method.now n) work.old.steps.items work.new.steps.items) }
{
    let Some(class) = at.method.nodes.as_slice()[node].trigger else {
        return Ok(());
    };
    let initialisers = coded_initialisers(work.alloc, at.program, class)?;
    if initialisers.is_empty() {
        return Ok(());
    }
    let catch_chain = catch_chain_of(work.alloc, at, node, &mut work.tables)?;
    for initialiser in &initialisers {
        started_items(*initialiser, catch_chain, work)?;
    }
    Ok(())
}

/// Adds that an initialiser runs; what it throws is kept, and goes to a catch chain.
fn started_items(
    initialiser: MethodNo,
    catch_chain: CatchChainNo,
    work: &mut Work,
) -> Result<(), IndexFailure>
    requires { IsNumbered work.old.tables.catch_chains catch_chain.0 }
    ensures { (l : CatchChain) → slice_get work.old.tables.catch_chains catch_chain.0 ≡ Some l
        → OnOk result (Makes work.old.tables work.new.tables (IsStarted initialiser l) work.old.steps.items work.new.steps.items) }
{
    initiated_items(initialiser, work)?;
    work.add_constraint(
        Place::Thrown(initialiser),
        Constraint::RethrowTo(catch_chain),
    )?;
    Ok(())
}

/// Adds that an initialiser runs, and that what it throws is kept.
pub fn initiated_items(initialiser: MethodNo, work: &mut Work) -> Result<(), IndexFailure>
    ensures { OnOk result (Makes work.old.tables work.new.tables (IsInitiated initialiser) work.old.steps.items work.new.steps.items) }
{
    let kept = work.tables.place(Place::Kept)?;
    work.steps.push(Item::Runs(initialiser))?;
    work.add_constraint(Place::Thrown(initialiser), Constraint::CopyTo(kept))?;
    Ok(())
}
