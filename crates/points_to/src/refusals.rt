//! The first refusals so far: of a method, and of a call.

ghost use Rattle.std.specs.Prelude.{◌≡◌, [], ◌∷◌, ◌++◌, List, None, MatchBool};
ghost use Rattle.points_to.specs.Firsts.{IsFirstCall, IsFirstMethod, IsNoLaterCall, LeadsCall, LeadsMethod, TrailsCall, TrailsMethod, reason_place};

use jvm_model::{MethodNo, Reason, Refusal};

/// A call that lacks its target: the offset of its node in the method's code, and why.
#[derive(Clone, Copy)]
pub(crate) struct RefusedCall {
    pub(crate) method: MethodNo,
    pub(crate) offset: u32,
    pub(crate) reason: Reason,
}

/// A method that is refused, and its refusal.
#[derive(Drop)]
pub(crate) struct RefusedMethod {
    pub(crate) method: MethodNo,
    pub(crate) refusal: Refusal,
}

/// The first of the calls, and of the methods, that were noted.
#[derive(Drop)]
pub(crate) struct Refusals {
    pub(crate) call: Option<RefusedCall>,
    pub(crate) method: Option<RefusedMethod>,
}

impl Refusals {
    /// Nothing is noted.
    pub(crate) fn new() -> Self
        ensures call { result.call ≡ None }
        ensures method { result.method ≡ None }
    {
        Refusals {
            call: None,
            method: None,
        }
    }

    /// Notes a call that lacks its target.
    pub(crate) fn note_call(&mut self, call: RefusedCall)
        ensures call { (calls : List RefusedCall) → IsFirstCall calls self.old.call → IsFirstCall (calls ++ call ∷ []) self.new.call }
        ensures method { self.new.method ≡ self.old.method }
    {
        if leads_call(call, self.call) {
            self.call = Some(call);
        }
    }

    /// Notes a method that is refused.
    pub(crate) fn note_method(&mut self, method: RefusedMethod)
        ensures method { (methods : List RefusedMethod) → IsFirstMethod methods self.old.method → IsFirstMethod (methods ++ method ∷ []) self.new.method }
        ensures call { self.new.call ≡ self.old.call }
    {
        if leads_method(method.method, &self.method) {
            self.method = Some(method);
        }
    }
}

/// Whether a method comes before the first one that was noted.
pub(crate) fn leads_method(method: MethodNo, first: &Option<RefusedMethod>) -> bool
    ensures { MatchBool result (LeadsMethod method.0 first.now) (TrailsMethod method.0 first.now) }
{
    match first {
        Some(first) => method.0 < first.method.0,
        None => true,
    }
}

/// Whether a call comes before the first one that was noted.
fn leads_call(call: RefusedCall, first: Option<RefusedCall>) -> bool
    ensures { MatchBool result (LeadsCall call first) (TrailsCall call first) }
{
    match first {
        Some(first) => is_before(call, first),
        None => true,
    }
}

/// Whether a call comes before another one, by their methods, by their offsets, and by the reasons.
fn is_before(call: RefusedCall, other: RefusedCall) -> bool
    ensures { MatchBool result (IsNoLaterCall call other) (IsNoLaterCall other call) }
{
    if call.method.0 != other.method.0 {
        return call.method.0 < other.method.0;
    }
    if call.offset != other.offset {
        return call.offset < other.offset;
    }
    place_of(call.reason) < place_of(other.reason)
}

/// The place of a reason in the order in which reasons at one call are named, and 4 for one that is none of these.
fn place_of(reason: Reason) -> u8
    ensures { result ≡ reason_place reason }
{
    match reason {
        Reason::NoStub => 0,
        Reason::NoImplementation => 1,
        Reason::ClashingDefaults => 2,
        Reason::PackageOverride => 3,
        _ => 4,
    }
}
