//! What operations allocate: objects of a site, and arrays that hold one another.

ghost use Rattle.std.specs.Prelude.{◌≡◌, ℕ, ◌+◌, ◌<◌, length, Some, slice_get, IfOk, OnOk};
ghost use Rattle.op_model.specs.declared.node.Node.{Node};
ghost use Rattle.points_to_constraints.specs.Items.{known};
ghost use Rattle.points_to_constraints.specs.NodeItems.{MakesItem, NewArrayItem};
ghost use Rattle.points_to_numbers.specs.Steps.{Makes};
ghost use Rattle.points_to_methods.specs.Arrays.{NestsAt};
ghost use Rattle.points_to_methods.specs.Known.{HasNode, IsNamed};
ghost use Rattle.points_to_rules.specs.Facts.{elements_of, may_hold};
ghost use Rattle.points_to_numbers.specs.Numbered.{Grows};

use crate::accesses::hold_after;
use crate::named::NamedMethod;
use jvm_model::{Site, SiteNo};
use points_to_numbers::{SiteKey, Tables, Work};
use points_to_rules::Place;
use program_index::index_failure::IndexFailure;

/// The number of a site.
fn number_site(tables: &mut Tables, site: &Site) -> Result<SiteNo, IndexFailure>
    ensures grows { OnOk result (Grows tables.old tables.new) }
    ensures calls { OnOk result (length tables.new.calls ≡ length tables.old.calls) }
    ensures stands { IfOk result (λ number. slice_get tables.new.sites number.0 ≡ Some site.now) }
{
    let class = tables.class_name(site.class.as_slice())?;
    let number = tables.site(SiteKey {
        kind: site.kind,
        method: site.method,
        offset: site.offset,
        class,
    })?;
    Ok(number)
}

/// Adds the objects of an allocation site to the points-to set of the target at each successor of a node.
pub(crate) fn make_site(
    at: &NamedMethod<'_>,
    node: usize,
    site: &Site,
    target: u32,
    work: &mut Work,
) -> Result<(), IndexFailure>
    requires known { IsNamed at.now }
    requires there { HasNode at.now node }
    ensures { (n : Node) → slice_get at.now.method.now.nodes node ≡ Some n
        → OnOk result (Makes work.old.tables work.new.tables (MakesItem at.now.method.now n target site.now) work.old.steps.items work.new.steps.items) }
{
    let number = number_site(&mut work.tables, site)?;
    hold_after(at, node, target, number, work)?;
    Ok(())
}

/// Adds the arrays of the inner site to the points-to set of the elements of the outer one.
fn nest_site(outer: &Site, inner: &Site, work: &mut Work) -> Result<(), IndexFailure>
    ensures { OnOk result (Makes work.old.tables work.new.tables (λ x. x ≡ known (may_hold (elements_of outer.now) inner.now)) work.old.steps.items work.new.steps.items) }
{
    let array = number_site(&mut work.tables, outer)?;
    let element = number_site(&mut work.tables, inner)?;
    work.add_holding(Place::Elements(array), element)?;
    Ok(())
}

/// Adds that the arrays of the site at a place hold the arrays of the next one.
fn nest_at(sites: &[Site], place: usize, work: &mut Work) -> Result<(), IndexFailure>
    requires { place < length sites.now }
    ensures { OnOk result (Makes work.old.tables work.new.tables (NestsAt sites.now place) work.old.steps.items work.new.steps.items) }
{
    if place + 1 == sites.len() {
        return Ok(());
    }
    nest_site(&sites[place], &sites[place + 1], work)?;
    Ok(())
}

/// Adds that the arrays of each site hold the arrays of the next one.
fn nest_sites(sites: &[Site], work: &mut Work) -> Result<(), IndexFailure>
    ensures { OnOk result (Makes work.old.tables work.new.tables (λ x. (i : ℕ) × (i < length sites.now) × NestsAt sites.now i x) work.old.steps.items work.new.steps.items) }
{
    for place in 0..sites.len() {
        nest_at(sites, place, work)?;
    }
    Ok(())
}

/// Adds the arrays of the first site to the points-to set of the target at each successor of a node, and that the arrays of each site hold
/// the arrays of the next one.
pub(crate) fn make_arrays(
    at: &NamedMethod<'_>,
    node: usize,
    sites: &[Site],
    target: u32,
    work: &mut Work,
) -> Result<(), IndexFailure>
    requires known { IsNamed at.now }
    requires there { HasNode at.now node }
    ensures { (n : Node) → slice_get at.now.method.now.nodes node ≡ Some n
        → OnOk result (Makes work.old.tables work.new.tables (NewArrayItem at.now.method.now n sites.now target) work.old.steps.items work.new.steps.items) }
{
    if sites.is_empty() {
        return Ok(());
    }
    make_site(at, node, &sites[0], target, work)?;
    nest_sites(sites, work)?;
    Ok(())
}
