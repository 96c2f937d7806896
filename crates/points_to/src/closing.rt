//! The loop of the solver: at each turn the fresh sites of a place, or one other item, are taken with what follows, until nothing is new.

ghost use Rattle.std.specs.Prelude.{◌≡◌, ◌<◌, [], length, All, IfOk, OnOk, IfErr};
ghost use Rattle.grouped_lists.specs.Groups.{values_at};
ghost use Rattle.program_model.specs.Numbers.{IsMethodNumber};
ghost use Rattle.op_model.specs.Supplies.{IsSameSupply};
ghost use Rattle.points_to_calls.specs.KeptAnswers.{AreRight};
ghost use Rattle.points_to_rules.specs.Solutions.{IsSupplyOf};
ghost use Rattle.points_to.specs.Closing.{IsClosed, IsClosingEnd};
ghost use Rattle.points_to.specs.Concluding.{IsKnownIndex, IsKnownTurn};
ghost use Rattle.points_to.specs.Queues.{IsHeld, IsSound, Takes, items_of, state_of, turns_of};
ghost use Rattle.points_to.specs.Taking.{IsConcluded, IsStarted, IsTakingEnd};
ghost use Rattle.points_to.specs.Working.{IsFresh};

use crate::conclude::conclude;
use crate::queue::{Queue, Turn};
use crate::start::start_items;
use crate::working::{Closing, Working};
use failure::Failure;
use jvm_model::MethodNo;
use op_model::Supply;
use points_to_numbers::Work;
use points_to_rules::SolveFailure;
use program_model::program::Program;
use std::alloc::Global;

/// The least items and the first refusals. A refused method leads to nothing.
pub(crate) fn close<S: Supply>(
    alloc: Global,
    program: &Program,
    supply: &mut S,
    entry: MethodNo,
    pair_limit: u64,
) -> Result<Closing, SolveFailure>
    requires entry { IsMethodNumber program.now entry.0 }
    requires supply { IsSupplyOf program.now (S.gives supply.old) }
    requires limit { 0 < pair_limit }
    ensures closed { IfOk result (λ closing. IsClosed program.now (S.gives supply.old) entry pair_limit closing.solution.tables (items_of closing.solution.items) closing.refusals.call closing.refusals.method closing.solution.methods.items) }
    ensures same { IsSameSupply (S.gives supply.old) (S.gives supply.new) }
    ensures end { IfErr result (IsClosingEnd program.now (S.gives supply.old) entry pair_limit) }
{
    let mut working = Working::new(alloc);
    let closed = close_over(program, supply, entry, pair_limit, &mut working);
    closed.and(Ok(working.into_closing()))
}

/// Takes in what follows from the start and from each turn, until nothing is new.
fn close_over<S: Supply>(
    program: &Program,
    supply: &mut S,
    entry: MethodNo,
    pair_limit: u64,
    working: &mut Working,
) -> Result<(), SolveFailure>
    requires entry { IsMethodNumber program.now entry.0 }
    requires supply { IsSupplyOf program.now (S.gives supply.old) }
    requires limit { 0 < pair_limit }
    requires fresh { IsFresh working.old }
    ensures closed { OnOk result (IsClosed program.now (S.gives supply.old) entry pair_limit working.new.found.work.tables (items_of working.new.queue) working.new.found.refusals.call working.new.found.refusals.method working.new.methods.items) }
    ensures same { IsSameSupply (S.gives supply.old) (S.gives supply.new) }
    ensures end { IfErr result (IsClosingEnd program.now (S.gives supply.old) entry pair_limit) }
{
    take_start(
        program,
        entry,
        pair_limit,
        &mut working.queue,
        &mut working.found.work,
    )?;
    while let Some(turn) = working.queue.next() {
        take_in(program, supply, &turn, pair_limit, working)?;
    }
    working.found.work.tables.apart();
    Ok(())
}

/// Takes in what the start leads to.
fn take_start(
    program: &Program,
    entry: MethodNo,
    pair_limit: u64,
    queue: &mut Queue,
    work: &mut Work,
) -> Result<(), SolveFailure>
    requires entry { IsMethodNumber program.now entry.0 }
    requires calls { length work.old.tables.calls ≡ 0 }
    requires sound { IsSound queue.old }
    requires pairs { queue.old.rows.pairs ≡ 0 }
    requires limit { 0 < pair_limit }
    requires steps { work.old.steps.items ≡ [] }
    ensures started { OnOk result (IsStarted program.now entry work.new.tables work.new.steps.items) }
    ensures takes { OnOk result (Takes (state_of queue.old) work.new.steps.items (state_of queue.new)) }
    ensures held { OnOk result (All (IsHeld (state_of queue.new)) work.new.steps.items) }
    ensures sound { OnOk result (IsSound queue.new) }
    ensures room { OnOk result (queue.new.rows.pairs < pair_limit) }
    ensures turns { turns_of queue.new ≡ turns_of queue.old }
    ensures end { IfErr result (IsTakingEnd (IsStarted program.now entry work.new.tables work.new.steps.items) (state_of queue.old) work.new.steps.items (state_of queue.new) pair_limit) }
{
    start_items(program, entry, work).map_err(Failure::widen)?;
    work.tables.apart();
    queue.take_all(&work.steps, pair_limit)
}

/// Takes in what follows from what a turn does.
fn take_in<S: Supply>(
    program: &Program,
    supply: &mut S,
    turn: &Turn,
    pair_limit: u64,
    working: &mut Working,
) -> Result<(), SolveFailure>
    requires supply { IsSupplyOf program.now (S.gives supply.old) }
    requires turn { IsKnownTurn program.now working.old.found.work.tables turn.now }
    requires index { IsKnownIndex program.now working.old.found.work.tables working.old.queue.rows.rows.items (values_at working.old.constraints.groups.items) }
    requires answers { AreRight program.now working.old.found.work.tables working.old.found.answers }
    requires sound { IsSound working.old.queue }
    requires room { working.old.queue.rows.pairs < pair_limit }
    ensures concluded { OnOk result (IsConcluded program.now (S.gives supply.old) turn.now working.old working.new) }
    ensures takes { OnOk result (Takes (state_of working.old.queue) working.new.found.work.steps.items (state_of working.new.queue)) }
    ensures held { OnOk result (All (IsHeld (state_of working.new.queue)) working.new.found.work.steps.items) }
    ensures sound { OnOk result (IsSound working.new.queue) }
    ensures room { OnOk result (working.new.queue.rows.pairs < pair_limit) }
    ensures turns { turns_of working.new.queue ≡ turns_of working.old.queue }
    ensures answers { OnOk result (AreRight program.now working.new.found.work.tables working.new.found.answers) }
    ensures same { IsSameSupply (S.gives supply.old) (S.gives supply.new) }
    ensures end { IfErr result (IsTakingEnd (IsConcluded program.now (S.gives supply.old) turn.now working.old working.new) (state_of working.old.queue) working.new.found.work.steps.items (state_of working.new.queue) pair_limit) }
{
    conclude(program, supply, turn, working).map_err(Failure::widen)?;
    working.found.work.tables.apart();
    working
        .queue
        .take_all(&working.found.work.steps, pair_limit)
}
