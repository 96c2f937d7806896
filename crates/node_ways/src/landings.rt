//! Where exceptions go that are thrown at a node.

ghost use Rattle.std.specs.Prelude.{◌≡◌, ◌↔◌, ◌<◌, ℕ, Option, length, Contains, IfOk, IsTrue, OnOk};
ghost use Rattle.jvm_model.specs.declared.number.ClassNo.{ClassNo as RuleClassNo};
ghost use Rattle.jvm_model.specs.declared.number.SiteNo.{SiteNo as RuleSiteNo};
ghost use Rattle.program_model.specs.Numbers.{IsClassNumber};
ghost use Rattle.op_model.specs.declared.lowered.LoweredMethod.{LoweredMethod as RuleMethod};
ghost use Rattle.machine_bytecode.specs.Objects.{Subject};
ghost use Rattle.stage_edges.specs.Rules.{MayThrow, ThrowsClass};
ghost use Rattle.ground.specs.Added.{AreAdded, OfOne};
ghost use Rattle.node_ways.specs.Parts.{AreLandingsIn, AreThrownSites, LandsAt, ListedLands, ThrowableLands};
ghost use Rattle.node_ways.specs.Ways.{AreLandings};

use ground::Ground;
use handler_search::first_taking;
use hierarchy::fits;
use jvm_model::{Bytes, MethodNo, SiteNo};
use op_model::Node;
use program_model::program::Program;
use std::alloc::{AllocError, Global};

/// Where an object of a class goes that is thrown at a node: to the handler at an offset, or out of the method.
fn landing_of(program: &Program, node: &Node, class: &[u8]) -> Option<u32>
    ensures { (handler : Option ℕ) → LandsAt program.now node.now class.now handler ↔ (handler ≡ result) }
{
    match first_taking(program, node.handlers.as_slice(), class) {
        Some(handler) => Some(handler.target),
        None => None,
    }
}

/// Whether a landing is among others.
fn is_there(landings: &[Option<u32>], landing: Option<u32>) -> bool
    ensures { IsTrue result ↔ Contains landings.now landing }
{
    landings.contains(&landing)
}

/// Adds a landing, unless it is there.
fn add_new(landings: &mut Vec<Option<u32>>, landing: Option<u32>) -> Result<(), AllocError>
    ensures { OnOk result (AreAdded (λ x. x ≡ landing) landings.old.items landings.new.items) }
{
    if is_there(landings, landing) {
        return Ok(());
    }
    landings.push(landing)?;
    Ok(())
}

/// Adds where an object of a class goes that is thrown at a node.
fn add_landing(
    program: &Program,
    node: &Node,
    class: &[u8],
    landings: &mut Vec<Option<u32>>,
) -> Result<(), AllocError>
    ensures { OnOk result (AreAdded (LandsAt program.now node.now class.now) landings.old.items landings.new.items) }
{
    add_new(landings, landing_of(program, node, class))
}

/// Adds where objects of the classes go that a node lists.
fn add_listed(
    program: &Program,
    node: &Node,
    landings: &mut Vec<Option<u32>>,
) -> Result<(), AllocError>
    requires { (c : RuleClassNo) → Contains node.now.throws c → IsClassNumber program.now c.0 }
    ensures { OnOk result (AreAdded (OfOne (ListedLands program.now node.now) node.now.throws) landings.old.items landings.new.items) }
{
    for class in node.throws.as_slice() {
        add_landing(program, node, program.class_name(*class), landings)?;
    }
    Ok(())
}

/// Adds where an object of a site goes that a throw throws, if it can be thrown.
fn add_throwable(
    ground: &Ground<'_>,
    node: &Node,
    site: SiteNo,
    landings: &mut Vec<Option<u32>>,
) -> Result<(), AllocError>
    requires { site.0 < length ground.now.sites }
    ensures { OnOk result (AreAdded (ThrowableLands ground.now node.now site) landings.old.items landings.new.items) }
{
    let class = ground.site(site).class.as_slice();
    if !fits(ground.program(), b"java/lang/Throwable", class) {
        return Ok(());
    }
    add_landing(ground.program(), node, class, landings)
}

/// Adds where objects of sites go that a throw throws, of those that can be thrown.
fn add_all_throwable(
    ground: &Ground<'_>,
    node: &Node,
    sites: &[SiteNo],
    landings: &mut Vec<Option<u32>>,
) -> Result<(), AllocError>
    requires { (site : RuleSiteNo) → Contains sites.now site → site.0 < length ground.now.sites }
    ensures { OnOk result (AreAdded (OfOne (ThrowableLands ground.now node.now) sites.now) landings.old.items landings.new.items) }
{
    for site in sites {
        add_throwable(ground, node, *site, landings)?;
    }
    Ok(())
}

/// Where what a node throws itself goes: objects of the classes that it lists, and, of a throw, objects of the sites of its slot.
pub(crate) fn raised_landings(
    alloc: Global,
    ground: &Ground<'_>,
    node: &Node,
    thrown: &[SiteNo],
) -> Result<Vec<Option<u32>>, AllocError>
    requires numbers { (c : RuleClassNo) → Contains node.now.throws c → IsClassNumber ground.now.program c.0 }
    requires within { (site : RuleSiteNo) → Contains thrown.now site → site.0 < length ground.now.sites }
    ensures { IfOk result (λ landings. (x : Subject) (l : RuleMethod) → x.program ≡ ground.now.program → AreThrownSites ground.now l node.now thrown.now
        → AreLandings x node.now (ThrowsClass x (Contains ground.now.facts) l node.now) landings.items) }
{
    let mut landings = Vec::new(alloc);
    add_listed(ground.program(), node, &mut landings)?;
    add_all_throwable(ground, node, thrown, &mut landings)?;
    Ok(landings)
}

/// Where what a method throws goes at a node.
pub(crate) fn method_landings(
    alloc: Global,
    ground: &Ground<'_>,
    node: &Node,
    method: MethodNo,
) -> Result<Vec<Option<u32>>, AllocError>
    ensures { IfOk result (λ landings. AreLandingsIn ground.now.program node.now (MayThrow (Contains ground.now.facts) method) landings.items) }
{
    let mut landings = Vec::new(alloc);
    for site in ground.sites_thrown_by(method) {
        let class = ground.site(*site).class.as_slice();
        add_landing(ground.program(), node, class, &mut landings)?;
    }
    Ok(landings)
}

/// Where objects of classes go that are thrown at a node.
pub(crate) fn class_landings(
    alloc: Global,
    program: &Program,
    node: &Node,
    classes: &[Bytes],
) -> Result<Vec<Option<u32>>, AllocError>
    ensures { IfOk result (λ landings. AreLandingsIn program.now node.now (Contains classes.now) landings.items) }
{
    let mut landings = Vec::new(alloc);
    for class in classes {
        add_landing(program, node, class.as_slice(), &mut landings)?;
    }
    Ok(landings)
}
