//! The sites of the new objects that the targets of a call give.

ghost use Rattle.std.specs.Prelude.{OnOk};
ghost use Rattle.program_model.specs.Numbers.{IsClassNumber, IsMethodNumber};
ghost use Rattle.ground.specs.Added.{AreAdded, OfOne};
ghost use Rattle.report_sites.specs.Found.{GivesNew, StubGives, TargetGives};

use crate::sites::{TrackedClass, add_class};
use jvm_model::{MethodNo, SiteKind, StubMethod, StubResult};
use op_model::NodeRef;
use program_model::method_body::MethodBody;
use site_report::TrackedSite;
use std::alloc::AllocError;

/// Adds the site of an outcome of a call, if that is a new object.
fn add_outcome(
    wanted: &TrackedClass<'_>,
    method: MethodNo,
    offset: u32,
    outcome: &StubResult,
    sites: &mut Vec<TrackedSite>,
) -> Result<(), AllocError>
    requires { IsClassNumber wanted.now.program.now wanted.now.upper.0 }
    ensures { OnOk result (AreAdded (GivesNew wanted.now.program.now wanted.now.upper method offset outcome.now) sites.old.items sites.new.items) }
{
    let StubResult::New(class) = outcome else {
        return Ok(());
    };
    let at = NodeRef {
        method: Some(method),
        offset,
    };
    add_class(wanted, SiteKind::Result, at, class.as_slice(), sites)
}

/// Adds the sites of all outcomes of a call.
fn add_outcomes(
    wanted: &TrackedClass<'_>,
    method: MethodNo,
    offset: u32,
    outcomes: &[StubResult],
    sites: &mut Vec<TrackedSite>,
) -> Result<(), AllocError>
    requires { IsClassNumber wanted.now.program.now wanted.now.upper.0 }
    ensures { OnOk result (AreAdded (OfOne (GivesNew wanted.now.program.now wanted.now.upper method offset) outcomes.now) sites.old.items sites.new.items) }
{
    for outcome in outcomes {
        add_outcome(wanted, method, offset, outcome, sites)?;
    }
    Ok(())
}

/// Adds the sites of the new objects that a described method gives. An abstract description gives none.
fn add_stub(
    wanted: &TrackedClass<'_>,
    method: MethodNo,
    offset: u32,
    stub: &StubMethod,
    sites: &mut Vec<TrackedSite>,
) -> Result<(), AllocError>
    requires { IsClassNumber wanted.now.program.now wanted.now.upper.0 }
    ensures { OnOk result (AreAdded (StubGives wanted.now.program.now wanted.now.upper method offset stub.now) sites.old.items sites.new.items) }
{
    if stub.is_abstract {
        return Ok(());
    }
    add_outcomes(wanted, method, offset, stub.returns.as_slice(), sites)
}

/// Adds the sites of the new objects that a target of a call gives, where a stub describes it.
pub(crate) fn add_target(
    wanted: &TrackedClass<'_>,
    method: MethodNo,
    offset: u32,
    target: MethodNo,
    sites: &mut Vec<TrackedSite>,
) -> Result<(), AllocError>
    requires upper { IsClassNumber wanted.now.program.now wanted.now.upper.0 }
    requires target { IsMethodNumber wanted.now.program.now target.0 }
    ensures { OnOk result (AreAdded (TargetGives wanted.now.program.now wanted.now.upper method offset target) sites.old.items sites.new.items) }
{
    match wanted.program.method_body(target) {
        MethodBody::InFile { .. } => Ok(()),
        MethodBody::Described(stub) => add_stub(wanted, method, offset, stub, sites),
    }
}
