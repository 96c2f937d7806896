//! The targets of calls, by what places hold: the chosen one, or those that the objects of the first argument select.

ghost use Rattle.std.specs.Prelude.{◌≡◌, ◌<◌, ◌↔◌, length, Contains, Some, slice_get, IfOk, OnOk};
ghost use Rattle.jvm_model.specs.declared.number.SiteNo.{SiteNo as HeldSiteNo};
ghost use Rattle.op_model.specs.declared.node.Node.{Node as MethodNode};
ghost use Rattle.program_model.specs.Numbers.{IsMethodNumber};
ghost use Rattle.slot_names.specs.KeptNames.{name_table};
ghost use Rattle.slot_names.specs.NodePlaces.{AreInOrder};
ghost use Rattle.slot_names.specs.Tables.{AreNames};
ghost use Rattle.slot_names.specs.declared.variable.Variable.{Variable as HeldVariable};
ghost use Rattle.slot_names.specs.Variables.{AreReachedNodes};
ghost use Rattle.points_to_rules.specs.declared.running_method.RunningMethod.{RunningMethod as ListedMethod};
ghost use Rattle.points_to_rules.specs.WholeMethods.{IsWholeMethod};
ghost use Rattle.certificate_ground.specs.Lists.{IsTarget};
ghost use Rattle.certificate_ground.specs.Pairs.{AddsPairs, ArePairs, IsJust};
ghost use Rattle.certificate_ground.specs.Targets.{IsHeldAt, IsReceiver, IsSelectedAt, IsSelectedBy, IsTargetIn, IsTargetOf};

use crate::held::Held;
use call_selection::selected_for;
use ground::receiver;
use grouped_lists::Groups;
use indexmap::IndexSet;
use jvm_model::{MethodNo, Site, SiteNo};
use op_model::{Call, NodeRef, Op};
use points_to_rules::RunningMethod;
use program_model::program::Program;
use slot_names::place_number;
use std::alloc::{AllocError, Global};

/// The calls, which stand at their numbers, and the targets of each, by its number.
#[derive(Drop)]
pub(crate) struct Targets {
    pub(crate) calls: IndexSet<NodeRef>,
    pub(crate) targets: Groups<MethodNo>,
}

/// What targets are found by: the program, the sites by number, and what places hold.
#[derive(Clone, Copy)]
pub(crate) struct Known<'a> {
    pub(crate) program: &'a Program,
    pub(crate) sites: &'a [Site],
    pub(crate) held: &'a Held,
}

/// The targets of the calls of methods, and of the call of the entry.
pub(crate) fn targets_of(
    alloc: Global,
    known: &Known<'_>,
    entry: MethodNo,
    methods: &[RunningMethod],
) -> Result<Targets, AllocError>
    requires whole { (r : ListedMethod) → Contains methods.now r → IsWholeMethod known.now.program.now r.method.method.0 r.method }
    requires names { (r : ListedMethod) → Contains methods.now r → AreNames r.method (name_table r.names) }
    requires held { (v : HeldVariable) (site : HeldSiteNo) → IsHeldAt known.now.held.now v site → site.0 < length known.now.sites.now }
    ensures { IfOk result (λ found. ArePairs (IsTarget known.now.program.now known.now.sites.now known.now.held.now entry methods.now) found.calls.keys found.targets.groups.items) }
{
    let mut targets = Targets {
        calls: IndexSet::new(alloc),
        targets: Groups::new(alloc),
    };
    let start = NodeRef {
        method: None,
        offset: 0,
    };
    add_target(&mut targets, start, entry)?;
    for method in methods {
        add_method(known, method, &mut targets)?;
    }
    Ok(targets)
}

/// Adds the targets of the calls of a method.
fn add_method(
    known: &Known<'_>,
    method: &RunningMethod,
    targets: &mut Targets,
) -> Result<(), AllocError>
    requires whole { IsWholeMethod known.now.program.now method.now.method.method.0 method.now.method }
    requires names { AreNames method.now.method (name_table method.now.names) }
    requires held { (v : HeldVariable) (site : HeldSiteNo) → IsHeldAt known.now.held.now v site → site.0 < length known.now.sites.now }
    ensures { OnOk result (AddsPairs (IsTargetIn known.now.program.now known.now.sites.now known.now.held.now method.now)
        targets.old.calls.keys targets.old.targets.groups.items targets.new.calls.keys targets.new.targets.groups.items) }
{
    for place in 0..method.method.nodes.len() {
        add_node(known, method, place, targets)?;
    }
    Ok(())
}

/// Adds the targets of the call of the node at a place, if it is a call.
fn add_node(
    known: &Known<'_>,
    method: &RunningMethod,
    place: usize,
    targets: &mut Targets,
) -> Result<(), AllocError>
    requires whole { IsWholeMethod known.now.program.now method.now.method.method.0 method.now.method }
    requires names { AreNames method.now.method (name_table method.now.names) }
    requires held { (v : HeldVariable) (site : HeldSiteNo) → IsHeldAt known.now.held.now v site → site.0 < length known.now.sites.now }
    requires there { place < length method.now.method.nodes }
    ensures { OnOk result ((n : MethodNode) → slice_get method.now.method.nodes place ≡ Some n
        → AddsPairs (IsTargetOf known.now.program.now known.now.sites.now known.now.held.now method.now.method n)
        targets.old.calls.keys targets.old.targets.groups.items targets.new.calls.keys targets.new.targets.groups.items) }
{
    let node = &method.method.nodes.as_slice()[place];
    let Op::Call(call) = &node.op else {
        return Ok(());
    };
    let at = NodeRef {
        method: Some(method.method.method),
        offset: node.offset,
    };
    add_chosen(call.chosen, at, targets)?;
    add_selected(
        known,
        call,
        at,
        receivers(known.held, method, place, call),
        targets,
    )
}

/// Adds the chosen target of a call, if it has one.
fn add_chosen(
    chosen: Option<MethodNo>,
    at: NodeRef,
    targets: &mut Targets,
) -> Result<(), AllocError>
    ensures { OnOk result (AddsPairs (λ call target. (call ≡ at) × (chosen ≡ Some target))
        targets.old.calls.keys targets.old.targets.groups.items targets.new.calls.keys targets.new.targets.groups.items) }
{
    match chosen {
        Some(target) => add_target(targets, at, target),
        None => Ok(()),
    }
}

/// The sites that the first argument of a call may refer to, if it is a reference.
fn receivers<'a>(held: &'a Held, method: &RunningMethod, place: usize, call: &Call) -> &'a [SiteNo]
    requires order { AreInOrder method.now.method }
    requires names { AreNames method.now.method (name_table method.now.names) }
    requires there { place < length method.now.method.nodes }
    requires reached { AreReachedNodes method.now.method }
    ensures { (n : MethodNode) → slice_get method.now.method.nodes place ≡ Some n
        → (site : HeldSiteNo) → Contains result.now site ↔ IsReceiver held.now method.now.method n call.now site }
{
    let Some(slot) = receiver(call) else {
        return &[];
    };
    let node = place_number(&method.method, place);
    held.at(method.names.variable(node, slot))
}

/// Adds the targets that objects of sites select.
fn add_selected(
    known: &Known<'_>,
    call: &Call,
    at: NodeRef,
    receivers: &[SiteNo],
    targets: &mut Targets,
) -> Result<(), AllocError>
    requires resolved { IsMethodNumber known.now.program.now call.now.resolved.0 }
    requires within { (site : HeldSiteNo) → Contains receivers.now site → site.0 < length known.now.sites.now }
    ensures { OnOk result (AddsPairs (IsSelectedBy known.now.program.now known.now.sites.now call.now at receivers.now)
        targets.old.calls.keys targets.old.targets.groups.items targets.new.calls.keys targets.new.targets.groups.items) }
{
    for site in receivers {
        add_one(known, call, at, *site, targets)?;
    }
    Ok(())
}

/// Adds the target that an object of a site selects, if it selects one.
fn add_one(
    known: &Known<'_>,
    call: &Call,
    at: NodeRef,
    site: SiteNo,
    targets: &mut Targets,
) -> Result<(), AllocError>
    requires resolved { IsMethodNumber known.now.program.now call.now.resolved.0 }
    requires within { site.0 < length known.now.sites.now }
    ensures { OnOk result (AddsPairs (λ key target. IsSelectedAt known.now.program.now known.now.sites.now call.now at site key target)
        targets.old.calls.keys targets.old.targets.groups.items targets.new.calls.keys targets.new.targets.groups.items) }
{
    let object = &known.sites[site.0 as usize];
    let answer = selected_for(
        known.program,
        call.kind,
        call.resolved,
        object.class.as_slice(),
    );
    let Some(chosen) = answer else {
        return Ok(());
    };
    match chosen {
        Ok(target) => add_target(targets, at, target),
        Err(_) => Ok(()),
    }
}

/// Adds a target of a call.
fn add_target(targets: &mut Targets, call: NodeRef, target: MethodNo) -> Result<(), AllocError>
    ensures { OnOk result (AddsPairs (IsJust call target) targets.old.calls.keys targets.old.targets.groups.items targets.new.calls.keys targets.new.targets.groups.items) }
{
    let (number, _) = targets.calls.insert_full(call)?;
    targets.targets.add_at(number, target)
}
