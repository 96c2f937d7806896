//! The lists of which a ground is made.

ghost use Rattle.std.specs.Prelude.{◌≡◌, ◌↔◌, ℕ, [], ◌∷◌, Some, slice_get, Contains, IfSome, IsTrue};
ghost use Rattle.ground.specs.Ordered.{ArePutInOrder, DoAscend, site_number};

use grouped_lists::Groups;
use indexmap::IndexSet;
use jvm_model::{FieldNo, MethodNo, Site, SiteNo};
use op_model::NodeRef;
use points_to_rules::{Place, RunningMethod};

/// A method, and an instance field that it may write.
#[derive(Clone, Copy, Debug, PartialEq, Eq, Hash)]
pub struct FieldWrite {
    pub method: MethodNo,
    pub field: FieldNo,
}

/// What was found of a program: the methods that may run and have code, and the number of each, in the same order; the sites and the places, which stand
/// at their numbers; the sites that each place may hold, by its number; the methods that may run; the calls, and the targets of each by its number; and
/// who may write what.
#[derive(Drop)]
pub struct Lists {
    pub methods: Vec<RunningMethod>,
    pub numbers: IndexSet<MethodNo>,
    pub sites: Vec<Site>,
    pub places: IndexSet<Place>,
    pub held: Groups<SiteNo>,
    pub running: IndexSet<MethodNo>,
    pub calls: IndexSet<NodeRef>,
    pub targets: Groups<MethodNo>,
    pub writes: IndexSet<FieldWrite>,
}

/// Puts the sites of each place and the targets of each call into the order of their numbers, each once. It takes no memory.
pub(crate) fn put_in_order(lists: &mut Lists)
    ensures { ArePutInOrder lists.old lists.new }
{
    lists.held.order();
    lists.targets.order();
}

/// The place of a method's number, if it has one.
pub(crate) fn number_place(numbers: &IndexSet<MethodNo>, number: MethodNo) -> Option<usize>
    ensures found { IfSome result (λ place. slice_get numbers.now.keys place ≡ Some number) }
    ensures only { (place : ℕ) → slice_get numbers.now.keys place ≡ Some number → result ≡ Some place }
{
    // The length tells that no number stands twice.
    let _ = numbers.len();
    numbers.get_index_of(&number)
}

/// The number of a call, if it has one.
pub fn call_number(calls: &IndexSet<NodeRef>, call: NodeRef) -> Option<usize>
    ensures found { IfSome result (λ number. slice_get calls.now.keys number ≡ Some call) }
    ensures only { (number : ℕ) → slice_get calls.now.keys number ≡ Some call → result ≡ Some number }
{
    // The length tells that no call stands twice.
    let _ = calls.len();
    calls.get_index_of(&call)
}

/// Whether a site is among sites of ascending numbers, by halving.
pub fn is_among(sites: &[SiteNo], site: SiteNo) -> bool
    requires { DoAscend site_number sites.now }
    ensures { IsTrue result ↔ Contains sites.now site }
{
    match sites.binary_search(&site) {
        Ok(_) => true,
        Err(_) => false,
    }
}

/// Whether a site is the only one.
pub(crate) fn is_alone(sites: &[SiteNo], site: SiteNo) -> bool
    ensures { IsTrue result ↔ (sites.now ≡ site ∷ []) }
{
    match sites {
        [only] => *only == site,
        _ => false,
    }
}
