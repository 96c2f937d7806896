//! What the start of the program leads to: the entry runs and is called, with an array of strings; and the initialisers of its class run.

ghost use Rattle.std.specs.Prelude.{◌≡◌, length, IfOk, OnOk};
ghost use Rattle.program_model.specs.Numbers.{IsMethodNumber};
ghost use Rattle.points_to_constraints.specs.ItemRules.{StartItem};
ghost use Rattle.points_to_numbers.specs.Numbered.{Grows};
ghost use Rattle.points_to_numbers.specs.Steps.{Adds};
ghost use Rattle.points_to.specs.Starting.{ArgumentItem, EntryItem, IsArgument, IsNumberOfStart, IsStartCall};

use crate::initialisers::initialiser_items;
use jvm_model::{MethodNo, Sequence};
use op_model::{CallKind, NodeRef};
use points_to_numbers::{CallNo, CallSite, CatchChain, Item, Tables, Work, boot_site};
use points_to_rules::Place;
use program_index::index_failure::IndexFailure;
use program_model::program::Program;
use slot_names::Variable;
use std::alloc::Global;

/// Adds what the start leads to.
pub(crate) fn start_items(
    program: &Program,
    entry: MethodNo,
    work: &mut Work,
) -> Result<(), IndexFailure>
    requires entry { IsMethodNumber program.now entry.0 }
    requires calls { length work.old.tables.calls ≡ 0 }
    ensures adds { OnOk result (Adds work.new.tables (StartItem program.now entry) work.old.steps.items work.new.steps.items) }
    ensures call { OnOk result (IsStartCall work.new.tables.calls) }
{
    entry_items(entry, work)?;
    argument_items(program, entry, work)?;
    initialiser_items(program, entry, work)?;
    Ok(())
}

/// Adds that the entry runs, and is called from the start.
fn entry_items(entry: MethodNo, work: &mut Work) -> Result<(), IndexFailure>
    requires { length work.old.tables.calls ≡ 0 }
    ensures adds { OnOk result (Adds work.new.tables (EntryItem entry) work.old.steps.items work.new.steps.items) }
    ensures call { OnOk result (IsStartCall work.new.tables.calls) }
{
    let call = start_call(work.alloc, &mut work.tables, entry)?;
    work.steps.push(Item::Runs(entry))?;
    work.steps.push(Item::Calls(call, entry))?;
    Ok(())
}

/// The number of the call of the entry, which is that of no node.
fn start_call(alloc: Global, tables: &mut Tables, entry: MethodNo) -> Result<CallNo, IndexFailure>
    requires { length tables.old.calls ≡ 0 }
    ensures number { IfOk result (λ number. IsNumberOfStart tables.new.calls number.0) }
    ensures call { OnOk result (IsStartCall tables.new.calls) }
{
    let outside = tables.place(Place::Kept)?;
    let catch_chain = tables.catch_chain(CatchChain {
        catch_clauses: Sequence::from_vec(Vec::new(alloc)),
        outside,
    })?;
    let call = tables.call(CallSite {
        at: NodeRef {
            method: None,
            offset: 0,
        },
        kind: CallKind::Static,
        resolved: entry,
        arguments: Sequence::from_vec(Vec::new(alloc)),
        results: Sequence::from_vec(Vec::new(alloc)),
        catch_chain,
    })?;
    Ok(call)
}

/// Adds an array of strings to the points-to set of the parameter of the entry, if it has one.
fn argument_items(program: &Program, entry: MethodNo, work: &mut Work) -> Result<(), IndexFailure>
    requires { IsMethodNumber program.now entry.0 }
    ensures grows { OnOk result (Grows work.old.tables work.new.tables) }
    ensures calls { OnOk result (length work.new.tables.calls ≡ length work.old.tables.calls) }
    ensures adds { OnOk result (Adds work.new.tables (ArgumentItem program.now entry) work.old.steps.items work.new.steps.items) }
{
    if program.method(entry).signature.descriptor == b"()V".as_slice() {
        return Ok(());
    }
    string_items(entry, work)?;
    Ok(())
}

/// Adds an array of strings to the points-to set of the parameter of the entry.
fn string_items(entry: MethodNo, work: &mut Work) -> Result<(), IndexFailure>
    ensures grows { OnOk result (Grows work.old.tables work.new.tables) }
    ensures calls { OnOk result (length work.new.tables.calls ≡ length work.old.tables.calls) }
    ensures adds { OnOk result (Adds work.new.tables (IsArgument entry) work.old.steps.items work.new.steps.items) }
{
    let array = boot_site(&mut work.tables, b"[Ljava/lang/String;")?;
    let string = boot_site(&mut work.tables, b"java/lang/String")?;
    let parameter = Variable::Parameter {
        method: entry,
        slot: 0,
    };
    work.add_holding(Place::Variable(parameter), array)?;
    work.add_holding(Place::Elements(array), string)?;
    Ok(())
}
