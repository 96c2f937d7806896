//! The ground of a certificate.

ghost use Rattle.std.specs.Prelude.{◌≡◌, length, Contains, IfOk};
ghost use Rattle.jvm_model.specs.declared.number.MethodNo.{MethodNo as ReachedMethodNo};
ghost use Rattle.program_model.specs.Numbers.{IsMethodNumber};
ghost use Rattle.op_model.specs.Supplies.{IsSameSupply};
ghost use Rattle.points_to_rules.specs.Solutions.{IsSupplyOf};
ghost use Rattle.certificate_lines.specs.declared.line.Line.TheVariants as kinds;
ghost use Rattle.certificates.specs.Format.{IsCertificate};
ghost use Rattle.certificate_ground.specs.Lists.{AreListedSets, AreListsOf};
ghost use Rattle.certificate_ground.specs.ListedGround.{IsListedGround};

use crate::held::{Held, held_of};
use crate::line_sites::sites_of;
use crate::reached::{numbers_of, reached_of};
use crate::targets::{Known, targets_of};
use crate::writes::writes_of;
use certificate_lines::Line;
use certificates::Certificate;
use ground::{FieldWrite, Ground, Lists};
use indexmap::IndexSet;
use jvm_model::{MethodNo, Site};
use op_model::Supply;
use program_model::program::Program;
use std::alloc::{AllocError, Global};

/// The ground of what a certificate lists: the listed facts, and the targets of calls that follow from them. The methods are those that are
/// listed as reached and given as nodes: a method without code is not, nor is one that is refused. It fails where memory runs out, where 32 bits
/// do not number the sites or the places, and where there are too many names of slots.
pub fn certificate_ground<'p, S: Supply>(
    alloc: Global,
    program: &'p Program,
    supply: &mut S,
    entry: MethodNo,
    certificate: &Certificate,
) -> Result<Ground<'p>, AllocError>
    requires entry { IsMethodNumber program.now entry.0 }
    requires supply { IsSupplyOf program.now (S.gives supply.old) }
    requires certificate { IsCertificate (record { methods = length program.now.methods; fields = length program.now.fields }) certificate.now }
    ensures ground { IfOk result (IsListedGround program.now (S.gives supply.old) entry certificate.now) }
    ensures same { IsSameSupply (S.gives supply.old) (S.gives supply.new) }
{
    let lists = lists_of(alloc, program, supply, entry, certificate.lines())?;
    Ok(Ground::of(program, lists))
}

/// The lists of what lines list.
fn lists_of<S: Supply>(
    alloc: Global,
    program: &Program,
    supply: &mut S,
    entry: MethodNo,
    lines: &[Line],
) -> Result<Lists, AllocError>
    requires supply { IsSupplyOf program.now (S.gives supply.old) }
    requires within { (m : ReachedMethodNo) → Contains lines.now (kinds.Reached m) → IsMethodNumber program.now m.0 }
    ensures lists { IfOk result (AreListsOf program.now (S.gives supply.old) entry lines.now) }
    ensures same { IsSameSupply (S.gives supply.old) (S.gives supply.new) }
{
    let reached = reached_of(alloc, program, supply, lines)?;
    let numbers = numbers_of(alloc, &reached.methods)?;
    let sets = listed_sets(alloc, lines)?;
    let known = Known {
        program,
        sites: &sets.sites,
        held: &sets.held,
    };
    let targets = targets_of(alloc, &known, entry, &reached.methods)?;
    Ok(Lists {
        methods: reached.methods,
        numbers,
        sites: sets.sites,
        places: sets.held.places,
        held: sets.held.sites,
        running: reached.running,
        calls: targets.calls,
        targets: targets.targets,
        writes: sets.writes,
    })
}

/// The sites that lines name, which stand at their numbers, what places may hold, and what methods may write.
#[derive(Drop)]
struct ListedSets {
    sites: Vec<Site>,
    held: Held,
    writes: IndexSet<FieldWrite>,
}

/// The sets that lines list, but for the methods.
fn listed_sets(alloc: Global, lines: &[Line]) -> Result<ListedSets, AllocError>
    ensures { IfOk result (λ sets. AreListedSets lines.now sets.sites.items sets.held sets.writes.keys) }
{
    let numbers = sites_of(alloc, lines)?;
    numbers.apart();
    let sites = numbers.sites(alloc)?;
    let held = held_of(alloc, lines, &numbers)?;
    // The length tells that no place stands twice.
    let _count = held.places.len();
    let writes = writes_of(alloc, lines)?;
    Ok(ListedSets {
        sites,
        held,
        writes,
    })
}
