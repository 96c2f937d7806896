//! A ground is made of a solution.

ghost use Rattle.std.specs.Prelude.{◌≡◌, ◌<◌, ◌^◌, ℕ, List, map, length, Contains, IfOk, Some, slice_get};
ghost use Rattle.least_sets.specs.Rules.{IsWithoutDoubles};
ghost use Rattle.slot_names.specs.KeptNames.{name_table};
ghost use Rattle.slot_names.specs.Tables.{AreNames};
ghost use Rattle.points_to_rules.specs.declared.place.Place.{Place};
ghost use Rattle.points_to_rules.specs.declared.running_method.RunningMethod.{RunningMethod};
ghost use Rattle.points_to_rules.specs.Facts.{Fact, Holder};
ghost use Rattle.points_to_rules.specs.Places.{IsHolderIn, holder_from};
ghost use Rattle.points_to_rules.specs.WholeMethods.{IsWholeMethod};
ghost use Rattle.points_to.specs.Queues.{items_of};
ghost use Rattle.points_to.specs.Solutions.{AreFactsOf};
ghost use Rattle.ground.specs.Lists.{HaveDifferentNumbers, nodes_of, number_of};
ghost use Rattle.call_graph.specs.Grounds.{HaveTargets, IsGround};
ghost use Rattle.call_graph.specs.Sets.{AreSetsOf};
ghost use Rattle.call_graph.specs.Written.{AreWrites};

use crate::edges::edges_of;
use crate::numbers::numbers_of;
use crate::sets::{Sets, sets_of};
use crate::sites::sites_of;
use crate::stores::stores_of;
use crate::writes::close_writes;
use ground::{FieldWrite, Ground, Lists};
use indexmap::IndexSet;
use jvm_model::{MethodNo, Site};
use points_to::Solution;
use points_to_rules::RunningMethod;
use program_model::program::Program;
use std::alloc::{AllocError, Global};

/// The ground of a solution: its sets, with the instance fields that each method may write, by itself, its targets, and the initialisers that it may
/// start.
pub fn ground_of(
    alloc: Global,
    program: &Program,
    solution: Solution,
) -> Result<Ground<'_>, AllocError>
    requires facts { (found : List Fact) × AreFactsOf solution.tables (items_of solution.items) found × HaveTargets program.now found }
    requires methods { (m : RunningMethod) → Contains solution.methods.items m → IsWholeMethod program.now m.method.method.0 m.method }
    requires names { (m : RunningMethod) → Contains solution.methods.items m → AreNames m.method (name_table m.names) }
    requires apart { HaveDifferentNumbers solution.methods.items }
    ensures methods { IfOk result (λ g. g.methods ≡ map nodes_of solution.methods.items) }
    ensures facts { IfOk result (λ g. (found : List Fact) → AreFactsOf solution.tables (items_of solution.items) found → IsGround program.now found g) }
{
    solution.tables.apart();
    let found = found_in(alloc, program, &solution)?;
    Ok(Ground::of(program, joined(solution, found)))
}

/// What is found of a solution: the numbers of its methods, its sets, its sites, and the instance fields that each method may write.
#[derive(Drop)]
struct Found {
    numbers: IndexSet<MethodNo>,
    sets: Sets,
    sites: Vec<Site>,
    writes: IndexSet<FieldWrite>,
}

/// The numbers of the methods, the sets and the sites of a solution, and the instance fields that each method may write.
fn found_in(alloc: Global, program: &Program, solution: &Solution) -> Result<Found, AllocError>
    requires facts { (found : List Fact) × AreFactsOf solution.now.tables (items_of solution.now.items) found }
    requires methods { (m : RunningMethod) → Contains solution.now.methods.items m → IsWholeMethod program.now m.method.method.0 m.method }
    requires apart { HaveDifferentNumbers solution.now.methods.items }
    ensures numbers { IfOk result (λ found. found.numbers.keys ≡ map number_of solution.now.methods.items) }
    ensures sets { IfOk result (λ found. AreSetsOf solution.now.tables (items_of solution.now.items) found.sets) }
    ensures sites { IfOk result (λ found. found.sites.items ≡ solution.now.tables.sites) }
    ensures writes { IfOk result (λ found. AreWrites program.now (map nodes_of solution.now.methods.items) found.sets found.writes.keys) }
{
    let numbers = numbers_of(alloc, &solution.methods)?;
    let sets = sets_of(alloc, &solution.tables, &solution.items)?;
    let sites = sites_of(alloc, &solution.tables)?;
    let writes = writes_of(alloc, program, &solution.methods, &sets)?;
    Ok(Found {
        numbers,
        sets,
        sites,
        writes,
    })
}

/// The lists of a solution, of which this is found.
fn joined(solution: Solution, found: Found) -> Lists
    ensures methods { result.methods ≡ solution.methods }
    ensures numbers { result.numbers ≡ found.numbers }
    ensures sites { result.sites ≡ found.sites }
    ensures held { result.held ≡ found.sets.sites }
    ensures running { result.running ≡ found.sets.running }
    ensures calls { result.calls ≡ found.sets.calls }
    ensures targets { result.targets ≡ found.sets.targets }
    ensures writes { result.writes ≡ found.writes }
    ensures holders { map (holder_from solution.tables.sites) result.places.keys ≡ solution.tables.holders }
    ensures stand { (number : ℕ) (place : Place) → slice_get result.places.keys number ≡ Some place → (h : Holder) × IsHolderIn solution.tables.sites place h }
    ensures apart { IsWithoutDoubles result.places.keys }
    ensures few { length result.places.keys < 2 ^ 32 }
{
    Lists {
        methods: solution.methods,
        numbers: found.numbers,
        sites: found.sites,
        places: solution.tables.into_places(),
        held: found.sets.sites,
        running: found.sets.running,
        calls: found.sets.calls,
        targets: found.sets.targets,
        writes: found.writes,
    }
}

/// The instance fields that each method may write.
fn writes_of(
    alloc: Global,
    program: &Program,
    methods: &[RunningMethod],
    sets: &Sets,
) -> Result<IndexSet<FieldWrite>, AllocError>
    requires { (m : RunningMethod) → Contains methods.now m → IsWholeMethod program.now m.method.method.0 m.method }
    ensures { IfOk result (λ writes. AreWrites program.now (map nodes_of methods.now) sets.now writes.keys) }
{
    let stores = stores_of(alloc, methods, &sets.running)?;
    let edges = edges_of(alloc, program, methods, sets)?;
    close_writes(alloc, stores, &edges)
}
