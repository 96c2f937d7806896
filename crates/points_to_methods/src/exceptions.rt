//! The exceptions of a node: the objects that it throws, and the new ones that it may throw itself.

ghost use Rattle.std.specs.Prelude.{◌≡◌, length, Some, slice_get, IfOk, OnOk};
ghost use Rattle.jvm_model.specs.declared.site.SiteKind.TheVariants as kinds;
ghost use Rattle.program_model.specs.Numbers.{IsClassNumber};
ghost use Rattle.op_model.specs.declared.node.Node.{Node};
ghost use Rattle.op_model.specs.declared.op.Op.TheVariants as operations;
ghost use Rattle.points_to_constraints.specs.NodeItems.{OpItem, RaiseItem};
ghost use Rattle.points_to_numbers.specs.Steps.{Makes};
ghost use Rattle.points_to_methods.specs.Fixed.{holder_of};
ghost use Rattle.points_to_methods.specs.Known.{HasNode, IsNamed};
ghost use Rattle.points_to_methods.specs.Raises.{RaisesOf};
ghost use Rattle.points_to_rules.specs.Rules.{Lands, site_of};
ghost use Rattle.points_to_numbers.specs.Numbered.{Grows};

use crate::adding::{FixedPlace, hold, key_of};
use crate::catch_chains::{catch_chain_of, handler_place};
use crate::named::{NamedMethod, slot_place};
use handler_search::first_taking;
use jvm_model::{ClassNo, SiteKind, SiteNo};
use points_to_numbers::{Constraint, SiteKey, Tables, Work};
use program_index::index_failure::IndexFailure;

/// Adds a throw constraint of a slot, by the catch chain of its node.
pub(crate) fn throw_slot(
    at: &NamedMethod<'_>,
    node: usize,
    value: u32,
    work: &mut Work,
) -> Result<(), IndexFailure>
    requires known { IsNamed at.now }
    requires there { HasNode at.now node }
    ensures { (n : Node) → slice_get at.now.method.now.nodes node ≡ Some n
        → OnOk result (Makes work.old.tables work.new.tables (OpItem (operations.Throw value) at.now.program.now at.now.method.now.method at.now.method.now n) work.old.steps.items work.new.steps.items) }
{
    let catch_chain = catch_chain_of(work.alloc, at, node, &mut work.tables)?;
    let from = slot_place(at, node, value);
    work.add_constraint(key_of(from), Constraint::ThrowTo(catch_chain))?;
    Ok(())
}

/// Adds a new object of each class that a node may throw itself to the points-to set of the place where it lands.
pub fn raise_items(at: &NamedMethod<'_>, node: usize, work: &mut Work) -> Result<(), IndexFailure>
    requires known { IsNamed at.now }
    requires there { HasNode at.now node }
    ensures { (n : Node) → slice_get at.now.method.now.nodes node ≡ Some n
        → OnOk result (Makes work.old.tables work.new.tables (RaiseItem at.now.program.now at.now.method.now.method at.now.method.now n) work.old.steps.items work.new.steps.items) }
{
    let throws = &at.method.nodes.as_slice()[node].throws;
    for class in throws.as_slice() {
        raise_class(at, node, *class, work)?;
    }
    Ok(())
}

/// Adds that a node may throw a new object of a class.
fn raise_class(
    at: &NamedMethod<'_>,
    node: usize,
    class: ClassNo,
    work: &mut Work,
) -> Result<(), IndexFailure>
    requires known { IsNamed at.now }
    requires there { HasNode at.now node }
    requires class { IsClassNumber at.now.program.now class.0 }
    ensures { (n : Node) → slice_get at.now.method.now.nodes node ≡ Some n
        → OnOk result (Makes work.old.tables work.new.tables (RaisesOf at.now.program.now at.now.method.now n class) work.old.steps.items work.new.steps.items) }
{
    let name = at.program.class_name(class);
    let site = raised_site(at, node, name, &mut work.tables)?;
    hold(raised_place(at, node, name), site, work)?;
    Ok(())
}

/// The number of the site of what a node throws itself of a class.
fn raised_site(
    at: &NamedMethod<'_>,
    node: usize,
    class: &[u8],
    tables: &mut Tables,
) -> Result<SiteNo, IndexFailure>
    requires { HasNode at.now node }
    ensures grows { OnOk result (Grows tables.old tables.new) }
    ensures calls { OnOk result (length tables.new.calls ≡ length tables.old.calls) }
    ensures stands { IfOk result (λ number. (n : Node) → slice_get at.now.method.now.nodes node ≡ Some n
        → slice_get tables.new.sites number.0 ≡ Some (site_of kinds.Thrown at.now.method.now.method n class.now)) }
{
    let offset = at.method.nodes.as_slice()[node].offset;
    let class = tables.class_name(class)?;
    let number = tables.site(SiteKey {
        kind: SiteKind::Thrown,
        method: Some(at.method.method),
        offset,
        class,
    })?;
    Ok(number)
}

/// The place of an object of a class that is thrown at a node: where the first handler begins that takes it, or else what the method throws.
fn raised_place(at: &NamedMethod<'_>, node: usize, class: &[u8]) -> FixedPlace
    requires known { IsNamed at.now }
    requires there { HasNode at.now node }
    ensures { (n : Node) → slice_get at.now.method.now.nodes node ≡ Some n
        → Lands at.now.program.now at.now.method.now.method at.now.method.now n class.now (holder_of result) }
{
    let handlers = at.method.nodes.as_slice()[node].handlers.as_slice();
    match first_taking(at.program, handlers, class) {
        Some(handler) => handler_place(at, handler),
        None => FixedPlace::Thrown(at.method.method),
    }
}
