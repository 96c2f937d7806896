//! What described methods keep, give and throw.

ghost use Rattle.std.specs.Prelude.{◌≡◌, List, ℕ, Option, Some, slice_get, IfOk, OnOk};
ghost use Rattle.jvm_model.specs.declared.site.Site.{Site};
ghost use Rattle.points_to_calls.specs.Describing.{origin_of_unit, IsOriginFor, IsReceiverAt, MakesOrigin, MakesSite, ReceiverItem, StubItem};
ghost use Rattle.points_to_calls.specs.Giving.{ResolvesIn};
ghost use Rattle.points_to_calls.specs.Parts.{ArgumentGives, ArgumentKept, ClassThrown, GotItem, KeptItem, ResultGives, ResultGot, ThrownItem};
ghost use Rattle.points_to_numbers.specs.Steps.{Makes};
ghost use Rattle.stub_arguments.specs.Units.{IsReadOf};
ghost use Rattle.points_to_constraints.specs.CallItems.{call_allocates};
ghost use Rattle.points_to_constraints.specs.Items.{CallSite};
ghost use Rattle.points_to_numbers.specs.Numbered.{IsNumbered, Numbered};

use crate::catch_chains::lands;
use crate::giving::{give, give_results};
use crate::origin::Origin;
use crate::receiver::Receiver;
use jvm_model::result_class::result_class;
use jvm_model::{Descriptor, SiteKind, SiteNo, StubArgument, StubMethod, StubResult};
use points_to_numbers::{CallNo, Item, SiteKey, Tables, Work};
use points_to_rules::Place;
use program_index::index_failure::IndexFailure;
use program_model::program::Program;
use stub_arguments::{read_descriptor, unit_of};

/// A described method, its descriptor, and the object that selects it, if that is looked at alone.
#[derive(Drop)]
struct Description<'a> {
    stub: &'a StubMethod,
    descriptor: &'a Option<Descriptor>,
    receiver: Option<SiteNo>,
}

/// What a unit of the arguments gives; of an object that is looked at alone, only the first one is it.
fn origin_of_unit(receiver: Option<SiteNo>, unit: usize) -> Option<Origin>
    ensures { result ≡ origin_of_unit receiver unit }
{
    let Some(site) = receiver else {
        return Some(Origin::Unit(unit));
    };
    if unit == 0 {
        return Some(Origin::Made(site));
    }
    None
}

/// What an argument gives that the stub names.
fn argument_origin(description: &Description<'_>, argument: StubArgument) -> Option<Origin>
    requires { IsReadOf description.now.stub.now.descriptor description.now.descriptor.now }
    ensures { (n : Numbered) (r : Option Site) → IsReceiverAt n description.now.receiver r
        → IsOriginFor n (ArgumentGives description.now.stub.now r argument) result }
{
    let Some(unit) = unit_of(description.stub, description.descriptor, argument) else {
        return None;
    };
    origin_of_unit(description.receiver, unit)
}

/// Adds what the library keeps of an argument.
fn keep_argument(
    program: &Program,
    call: CallNo,
    description: &Description<'_>,
    argument: StubArgument,
    work: &mut Work,
) -> Result<(), IndexFailure>
    requires call { IsNumbered work.old.tables.calls call.0 }
    requires resolved { ResolvesIn program.now work.old.tables call.0 }
    requires read { IsReadOf description.now.stub.now.descriptor description.now.descriptor.now }
    requires receiver { (r : Option Site) × IsReceiverAt work.old.tables description.now.receiver r }
    ensures { OnOk result ((site : CallSite) (r : Option Site) → slice_get work.old.tables.calls call.0 ≡ Some site → IsReceiverAt work.old.tables description.now.receiver r
        → Makes work.old.tables work.new.tables (ArgumentKept program.now site description.now.stub.now r argument) work.old.steps.items work.new.steps.items) }
{
    let Some(origin) = argument_origin(description, argument) else {
        return Ok(());
    };
    let kept = work.tables.place(Place::Kept)?;
    give(program, call, origin, kept, work)
}

/// Adds what the library keeps of all arguments.
fn keep_arguments(
    program: &Program,
    call: CallNo,
    description: &Description<'_>,
    work: &mut Work,
) -> Result<(), IndexFailure>
    requires call { IsNumbered work.old.tables.calls call.0 }
    requires resolved { ResolvesIn program.now work.old.tables call.0 }
    requires read { IsReadOf description.now.stub.now.descriptor description.now.descriptor.now }
    requires receiver { (r : Option Site) × IsReceiverAt work.old.tables description.now.receiver r }
    ensures { OnOk result ((site : CallSite) (r : Option Site) → slice_get work.old.tables.calls call.0 ≡ Some site → IsReceiverAt work.old.tables description.now.receiver r
        → Makes work.old.tables work.new.tables (KeptItem program.now site description.now.stub.now r) work.old.steps.items work.new.steps.items) }
{
    for argument in description.stub.keeps.as_slice() {
        keep_argument(program, call, description, *argument, work)?;
    }
    Ok(())
}

/// The number of the site at which a call allocates an object of a class.
fn allocated(
    tables: &mut Tables,
    call: CallNo,
    kind: SiteKind,
    class: &[u8],
) -> Result<SiteNo, IndexFailure>
    requires { IsNumbered tables.old.calls call.0 }
    ensures { IfOk result (λ number. (site : CallSite) → slice_get tables.old.calls call.0 ≡ Some site
        → MakesSite tables.old tables.new (call_allocates kind site class.now) number) }
{
    let name = tables.class_name(class)?;
    let at = tables.call_of(call).at;
    let key = SiteKey {
        kind,
        method: at.method,
        offset: at.offset,
        class: name,
    };
    tables.site(key)
}

/// What a listed result gives that is a new object.
fn new_origin(
    tables: &mut Tables,
    call: CallNo,
    description: &Description<'_>,
    class: &[u8],
) -> Result<Option<Origin>, IndexFailure>
    requires { IsNumbered tables.old.calls call.0 }
    ensures { IfOk result (λ origin. (site : CallSite) (r : Option Site) → slice_get tables.old.calls call.0 ≡ Some site → IsReceiverAt tables.old description.now.receiver r
        → MakesOrigin tables.old tables.new (ResultGives (StubResult.New class.now) description.now.stub.now site r) origin) }
{
    if description.receiver.is_some() {
        return Ok(None);
    }
    let site = allocated(tables, call, SiteKind::Result, class)?;
    Ok(Some(Origin::Made(site)))
}

/// What a listed result gives that was kept.
fn kept_origin(
    tables: &mut Tables,
    description: &Description<'_>,
) -> Result<Option<Origin>, IndexFailure>
    ensures { IfOk result (λ origin. (site : CallSite) (r : Option Site) → IsReceiverAt tables.old description.now.receiver r
        → MakesOrigin tables.old tables.new (ResultGives StubResult.Kept description.now.stub.now site r) origin) }
{
    if description.receiver.is_some() {
        return Ok(None);
    }
    let Some(class) = result_class(description.stub.descriptor.as_slice()) else {
        return Ok(None);
    };
    let class = tables.class_name(class)?;
    Ok(Some(Origin::Fitting(class)))
}

/// What a listed result gives.
fn result_origin(
    tables: &mut Tables,
    call: CallNo,
    description: &Description<'_>,
    outcome: &StubResult,
) -> Result<Option<Origin>, IndexFailure>
    requires call { IsNumbered tables.old.calls call.0 }
    requires read { IsReadOf description.now.stub.now.descriptor description.now.descriptor.now }
    ensures { IfOk result (λ origin. (site : CallSite) (r : Option Site) → slice_get tables.old.calls call.0 ≡ Some site → IsReceiverAt tables.old description.now.receiver r
        → MakesOrigin tables.old tables.new (ResultGives outcome.now description.now.stub.now site r) origin) }
{
    match outcome {
        StubResult::Primitive => Ok(None),
        StubResult::Void => Ok(None),
        StubResult::Null => Ok(None),
        StubResult::Given(argument) => Ok(argument_origin(description, *argument)),
        StubResult::New(class) => new_origin(tables, call, description, class.as_slice()),
        StubResult::Kept => kept_origin(tables, description),
    }
}

/// Adds what the places of the result get by a listed result.
fn give_result(
    program: &Program,
    call: CallNo,
    description: &Description<'_>,
    outcome: &StubResult,
    work: &mut Work,
) -> Result<(), IndexFailure>
    requires call { IsNumbered work.old.tables.calls call.0 }
    requires resolved { ResolvesIn program.now work.old.tables call.0 }
    requires read { IsReadOf description.now.stub.now.descriptor description.now.descriptor.now }
    requires receiver { (r : Option Site) × IsReceiverAt work.old.tables description.now.receiver r }
    ensures { OnOk result ((site : CallSite) (r : Option Site) → slice_get work.old.tables.calls call.0 ≡ Some site → IsReceiverAt work.old.tables description.now.receiver r
        → Makes work.old.tables work.new.tables (ResultGot program.now site description.now.stub.now r outcome.now) work.old.steps.items work.new.steps.items) }
{
    let Some(origin) = result_origin(&mut work.tables, call, description, outcome)? else {
        return Ok(());
    };
    give_results(program, call, origin, work)
}

/// Adds what the places of the result get by all listed results.
fn give_all(
    program: &Program,
    call: CallNo,
    description: &Description<'_>,
    work: &mut Work,
) -> Result<(), IndexFailure>
    requires call { IsNumbered work.old.tables.calls call.0 }
    requires resolved { ResolvesIn program.now work.old.tables call.0 }
    requires read { IsReadOf description.now.stub.now.descriptor description.now.descriptor.now }
    requires receiver { (r : Option Site) × IsReceiverAt work.old.tables description.now.receiver r }
    ensures { OnOk result ((site : CallSite) (r : Option Site) → slice_get work.old.tables.calls call.0 ≡ Some site → IsReceiverAt work.old.tables description.now.receiver r
        → Makes work.old.tables work.new.tables (GotItem program.now site description.now.stub.now r) work.old.steps.items work.new.steps.items) }
{
    for outcome in description.stub.returns.as_slice() {
        give_result(program, call, description, outcome, work)?;
    }
    Ok(())
}

/// Adds that an exception of a class is thrown by a call.
fn throw_class(
    program: &Program,
    call: CallNo,
    class: &[u8],
    work: &mut Work,
) -> Result<(), IndexFailure>
    requires { IsNumbered work.old.tables.calls call.0 }
    ensures { OnOk result ((site : CallSite) → slice_get work.old.tables.calls call.0 ≡ Some site
        → Makes work.old.tables work.new.tables (ClassThrown program.now site class.now) work.old.steps.items work.new.steps.items) }
{
    let catch_chain = work.tables.call_of(call).catch_chain;
    let to = lands(program, &work.tables, catch_chain, class);
    let site = allocated(&mut work.tables, call, SiteKind::Thrown, class)?;
    work.steps.push(Item::Holds(to, site))?;
    Ok(())
}

/// Adds that exceptions of all listed classes are thrown by a call.
fn throw_all(
    program: &Program,
    call: CallNo,
    stub: &StubMethod,
    work: &mut Work,
) -> Result<(), IndexFailure>
    requires { IsNumbered work.old.tables.calls call.0 }
    ensures { OnOk result ((site : CallSite) → slice_get work.old.tables.calls call.0 ≡ Some site
        → Makes work.old.tables work.new.tables (ThrownItem program.now site stub.now) work.old.steps.items work.new.steps.items) }
{
    for class in stub.throws.as_slice() {
        throw_class(program, call, class.as_slice(), work)?;
    }
    Ok(())
}

/// Adds what a call of a described method leads to. An abstract description has nothing.
pub(crate) fn stub_items(
    program: &Program,
    call: CallNo,
    stub: &StubMethod,
    work: &mut Work,
) -> Result<(), IndexFailure>
    requires call { IsNumbered work.old.tables.calls call.0 }
    requires resolved { ResolvesIn program.now work.old.tables call.0 }
    ensures { OnOk result ((site : CallSite) → slice_get work.old.tables.calls call.0 ≡ Some site
        → Makes work.old.tables work.new.tables (StubItem program.now site stub.now) work.old.steps.items work.new.steps.items) }
{
    if stub.is_abstract {
        return Ok(());
    }
    let descriptor = read_descriptor(work.alloc, stub)?;
    let description = Description {
        stub,
        descriptor: &descriptor,
        receiver: None,
    };
    keep_arguments(program, call, &description, work)?;
    give_all(program, call, &description, work)?;
    throw_all(program, call, stub, work)
}

/// Adds what a described method keeps and gives of an object that selects it.
pub(crate) fn receiver_items(
    program: &Program,
    receiver: Receiver,
    stub: &StubMethod,
    work: &mut Work,
) -> Result<(), IndexFailure>
    requires call { IsNumbered work.old.tables.calls receiver.call.0 }
    requires resolved { ResolvesIn program.now work.old.tables receiver.call.0 }
    requires receiver { IsNumbered work.old.tables.sites receiver.site.0 }
    ensures { OnOk result ((site : CallSite) (s : Site) → slice_get work.old.tables.calls receiver.call.0 ≡ Some site → slice_get work.old.tables.sites receiver.site.0 ≡ Some s
        → Makes work.old.tables work.new.tables (ReceiverItem program.now site stub.now s) work.old.steps.items work.new.steps.items) }
{
    if stub.is_abstract {
        return Ok(());
    }
    let descriptor = read_descriptor(work.alloc, stub)?;
    let description = Description {
        stub,
        descriptor: &descriptor,
        receiver: Some(receiver.site),
    };
    keep_arguments(program, receiver.call, &description, work)?;
    give_all(program, receiver.call, &description, work)
}
