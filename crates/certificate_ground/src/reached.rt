//! The methods that lines list as reached, and the nodes of those that are given as nodes.

ghost use Rattle.std.specs.Prelude.{◌≡◌, ◌↔◌, map, Contains, IfOk, OnOk};
ghost use Rattle.jvm_model.specs.declared.number.MethodNo.{MethodNo as ReachedMethodNo};
ghost use Rattle.op_model.specs.Supplies.{IsSameSupply};
ghost use Rattle.program_model.specs.Numbers.{IsMethodNumber};
ghost use Rattle.slot_names.specs.Variables.{AreReachedNodes};
ghost use Rattle.points_to_rules.specs.Solutions.{IsSupplyOf};
ghost use Rattle.ground.specs.Added.{AreAdded, OfOne};
ghost use Rattle.ground.specs.Lists.{HaveDifferentNumbers, number_of};
ghost use Rattle.certificate_ground.specs.Reached.{AreGivenOf, IsGivenAs, IsListedLast, IsReachedBy};
ghost use Rattle.certificate_lines.specs.declared.line.Line.TheVariants as kinds;

use certificate_lines::Line;
use entry_points::is_coded;
use failure::Failure;
use indexmap::IndexSet;
use jvm_model::MethodNo;
use op_model::{LoweredMethod, Supply};
use points_to_rules::RunningMethod;
use program_model::program::Program;
use slot_names::names_of;
use std::alloc::{AllocError, Global};

/// The methods that are listed as reached, and the nodes of those that are given as nodes.
#[derive(Drop)]
pub(crate) struct Reached {
    pub(crate) running: IndexSet<MethodNo>,
    pub(crate) methods: Vec<RunningMethod>,
}

/// What lines list as reached.
pub(crate) fn reached_of<S: Supply>(
    alloc: Global,
    program: &Program,
    supply: &mut S,
    lines: &[Line],
) -> Result<Reached, AllocError>
    requires supply { IsSupplyOf program.now (S.gives supply.old) }
    requires within { (m : ReachedMethodNo) → Contains lines.now (kinds.Reached m) → IsMethodNumber program.now m.0 }
    ensures running { IfOk result (λ reached. (m : ReachedMethodNo) → Contains reached.running.keys m ↔ OfOne IsReachedBy lines.now m) }
    ensures given { IfOk result (λ reached. AreGivenOf (S.gives supply.old) reached.running.keys reached.methods.items) }
    ensures same { IsSameSupply (S.gives supply.old) (S.gives supply.new) }
{
    let mut reached = Reached {
        running: IndexSet::new(alloc),
        methods: Vec::new(alloc),
    };
    for line in lines {
        add_line(alloc, program, supply, line, &mut reached)?;
    }
    Ok(reached)
}

/// Adds the method that a line lists as reached, if it lists one.
fn add_line<S: Supply>(
    alloc: Global,
    program: &Program,
    supply: &mut S,
    line: &Line,
    reached: &mut Reached,
) -> Result<(), AllocError>
    requires supply { IsSupplyOf program.now (S.gives supply.old) }
    requires within { (m : ReachedMethodNo) → line.now ≡ kinds.Reached m → IsMethodNumber program.now m.0 }
    requires given { AreGivenOf (S.gives supply.old) reached.old.running.keys reached.old.methods.items }
    ensures running { OnOk result (AreAdded (IsReachedBy line.now) reached.old.running.keys reached.new.running.keys) }
    ensures given { OnOk result (AreGivenOf (S.gives supply.old) reached.new.running.keys reached.new.methods.items) }
    ensures same { IsSameSupply (S.gives supply.old) (S.gives supply.new) }
{
    let Line::Reached(method) = line else {
        return Ok(());
    };
    add_method(alloc, program, supply, *method, reached)
}

/// Adds a method, if it is not there yet, with its nodes, if it is given as nodes.
fn add_method<S: Supply>(
    alloc: Global,
    program: &Program,
    supply: &mut S,
    method: MethodNo,
    reached: &mut Reached,
) -> Result<(), AllocError>
    requires supply { IsSupplyOf program.now (S.gives supply.old) }
    requires within { IsMethodNumber program.now method.0 }
    requires given { AreGivenOf (S.gives supply.old) reached.old.running.keys reached.old.methods.items }
    ensures running { OnOk result (AreAdded (λ m. m ≡ method) reached.old.running.keys reached.new.running.keys) }
    ensures given { OnOk result (AreGivenOf (S.gives supply.old) reached.new.running.keys reached.new.methods.items) }
    ensures same { IsSameSupply (S.gives supply.old) (S.gives supply.new) }
{
    let is_new = reached.running.insert(method)?;
    if !is_new {
        return Ok(());
    }
    let nodes = given(alloc, program, supply, method)?;
    match nodes {
        Some(lowered) => list_method(alloc, lowered, &mut reached.methods),
        None => Ok(()),
    }
}

/// The nodes of a method, if it is given as nodes: a method without code is not, nor is one that is refused.
fn given<S: Supply>(
    alloc: Global,
    program: &Program,
    supply: &mut S,
    method: MethodNo,
) -> Result<Option<LoweredMethod>, AllocError>
    requires supply { IsSupplyOf program.now (S.gives supply.old) }
    requires within { IsMethodNumber program.now method.0 }
    ensures given { IfOk result (IsGivenAs (S.gives supply.old) method) }
    ensures same { IsSameSupply (S.gives supply.old) (S.gives supply.new) }
{
    if !is_coded(program, method) {
        return Ok(None);
    }
    match supply.lowered(alloc, method) {
        Ok(lowered) => Ok(Some(lowered)),
        Err(Failure::Cause(_)) => Ok(None),
        Err(Failure::OutOfMemory) => Err(AllocError),
    }
}

/// Lists a method with the variables of its slots.
fn list_method(
    alloc: Global,
    lowered: LoweredMethod,
    methods: &mut Vec<RunningMethod>,
) -> Result<(), AllocError>
    requires { AreReachedNodes lowered }
    ensures { OnOk result (IsListedLast lowered methods.old.items methods.new.items) }
{
    let names = names_of(alloc, &lowered)?;
    methods.push(RunningMethod {
        method: lowered,
        names,
    })?;
    Ok(())
}

/// The numbers of methods, in the order in which the methods stand.
pub(crate) fn numbers_of(
    alloc: Global,
    methods: &[RunningMethod],
) -> Result<IndexSet<MethodNo>, AllocError>
    requires { HaveDifferentNumbers methods.now }
    ensures { IfOk result (λ numbers. numbers.keys ≡ map number_of methods.now) }
{
    let mut numbers = IndexSet::new(alloc);
    for method in methods {
        numbers.insert(method.method.method)?;
    }
    Ok(numbers)
}
