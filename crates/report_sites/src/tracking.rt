//! The tracked sites, from the nodes of methods that may run.

ghost use Rattle.std.specs.Prelude.{Contains, IfOk, OnOk};
ghost use Rattle.jvm_model.specs.declared.number.MethodNo.{MethodNo as RuleMethodNo};
ghost use Rattle.program_model.specs.Numbers.{name_at, IsClassNumber, IsMethodNumber};
ghost use Rattle.op_model.specs.declared.node.NodeRef.{NodeRef};
ghost use Rattle.points_to_rules.specs.Facts.{may_call};
ghost use Rattle.ground.specs.Added.{AreAdded};
ghost use Rattle.ground.specs.Findings.{gives_listed};
ghost use Rattle.report_sites.specs.Found.{AreFound, IsSiteOfMethod};
ghost use Rattle.report_spec.specs.Tracked.{AreTracked};

use crate::nodes::add_nodes;
use crate::order::in_order;
use crate::sites::TrackedClass;
use ground::Ground;
use jvm_model::ClassNo;
use op_model::LoweredMethod;
use site_report::TrackedSite;
use std::alloc::{AllocError, Global};

/// The sites at which methods that may run make objects of a class or of one below it, in the order of a report. It takes time by the number of
/// nodes and of the targets of calls, and by the logarithm of how many sites are found.
pub fn tracked(
    alloc: Global,
    ground: &Ground<'_>,
    upper: ClassNo,
) -> Result<Vec<TrackedSite>, AllocError>
    requires { IsClassNumber ground.now.program upper.0 }
    ensures { IfOk result (λ sites. AreTracked ground.now.program (gives_listed ground.now.methods) (Contains ground.now.facts)
        (name_at ground.now.program upper.0) sites.items) }
{
    let program = ground.program();
    ground.well_formed();
    let wanted = TrackedClass { program, upper };
    let found = found_sites(alloc, &wanted, ground)?;
    Ok(in_order(found))
}

/// The sites of all methods that may run, as they are found.
fn found_sites(
    alloc: Global,
    wanted: &TrackedClass<'_>,
    ground: &Ground<'_>,
) -> Result<Vec<TrackedSite>, AllocError>
    requires upper { IsClassNumber wanted.now.program.now wanted.now.upper.0 }
    requires targets { (call : NodeRef) (m : RuleMethodNo) → Contains ground.now.facts (may_call call m) → IsMethodNumber wanted.now.program.now m.0 }
    ensures { IfOk result (λ sites. AreFound wanted.now.program.now ground.now wanted.now.upper sites.items) }
{
    let mut sites = Vec::new(alloc);
    for place in 0..ground.method_count() {
        add_method(wanted, ground, ground.method(place), &mut sites)?;
    }
    Ok(sites)
}

/// Adds the sites of a method, if it may run.
fn add_method(
    wanted: &TrackedClass<'_>,
    ground: &Ground<'_>,
    method: &LoweredMethod,
    sites: &mut Vec<TrackedSite>,
) -> Result<(), AllocError>
    requires upper { IsClassNumber wanted.now.program.now wanted.now.upper.0 }
    requires targets { (call : NodeRef) (m : RuleMethodNo) → Contains ground.now.facts (may_call call m) → IsMethodNumber wanted.now.program.now m.0 }
    ensures { OnOk result (AreAdded (IsSiteOfMethod wanted.now.program.now ground.now wanted.now.upper method.now) sites.old.items sites.new.items) }
{
    if !ground.may_run(method.method) {
        return Ok(());
    }
    add_nodes(
        wanted,
        ground,
        method.method,
        method.nodes.as_slice(),
        sites,
    )
}
