//! The ground, and what is read of it. No reading takes memory.

ghost use Rattle.std.specs.Prelude.{◌≡◌, ◌↔◌, ◌<◌, ℕ, [], length, map, Contains, IsTrue, Some, slice_get, IfSome, IfNone};
ghost use Rattle.jvm_model.specs.declared.number.MethodNo.{MethodNo as RuleMethodNo};
ghost use Rattle.jvm_model.specs.declared.number.SiteNo.{SiteNo as RuleSiteNo};
ghost use Rattle.jvm_model.specs.declared.site.Site.{Site as RuleSite};
ghost use Rattle.program_model.specs.Numbers.{IsMethodNumber};
ghost use Rattle.op_model.specs.declared.lowered.LoweredMethod.{LoweredMethod as RuleMethod};
ghost use Rattle.op_model.specs.declared.node.Node.{Node as RuleNode};
ghost use Rattle.op_model.specs.declared.node.NodeRef.{NodeRef as RuleNodeRef};
ghost use Rattle.slot_names.specs.Variables.{IsVariable};
ghost use Rattle.least_sets.specs.Rules.{IsWithoutDoubles};
ghost use Rattle.points_to_rules.specs.Facts.{Holder, may_call, may_hold, may_run, may_write, thrown_by, variable as variable_holder};
ghost use Rattle.points_to_rules.specs.Places.{IsHolderIn};
ghost use Rattle.points_to_rules.specs.WholeMethods.{IsWholeMethod};
ghost use Rattle.ground.specs.declared.lists.FieldWrite.{FieldWrite as RuleWrite};
ghost use Rattle.ground.specs.declared.node_place.NodePlace.{NodePlace as RuleNodePlace};
ghost use Rattle.ground.specs.Findings.{AreSitesOf, HasNode, HoldsAlone, IsNodeAt, IsPlaceInMethod, IsPlaceOfMethod, IsPlaceOfNode, IsSlotOf, MayGoOn};
ghost use Rattle.ground.specs.Ordered.{DoAscend, method_number, site_number};
ghost use Rattle.ground.specs.Lists.{HasFacts, holders_of, nodes_of};
ghost use Rattle.ground.specs.Sound.{AreSound};

use crate::lists::{
    FieldWrite, Lists, call_number, is_alone, is_among, number_place, put_in_order,
};
use crate::node_place::NodePlace;
use jvm_model::{FieldNo, MethodNo, Site, SiteNo};
use op_model::{LoweredMethod, Node, NodeRef};
use points_to_rules::{Place, PlaceNo};
use program_model::program::Program;
use slot_names::{Variable, place_number, place_of};
use std::marker::Model;

/// What is known of a program. Contracts see its methods, its sites and holders by number, and its facts.
#[derive(Drop)]
pub struct Ground<'p> {
    program: &'p Program,
    lists: Lists,
}

impl<'p> Model for Ground<'p> {
    ghost use Rattle.ground.specs.Findings.{Findings};
    ghost use Rattle.ground.specs.Told.{findings_of};
    ghost use Rattle.ground.specs.Ordered.{AreOfGround};

    ghost Value = { Findings };

    ghost view = { λ g. findings_of g.program.now g.lists };

    ghost invariant = { λ g. AreOfGround g.program.now g.lists };
}

impl<'p> Ground<'p> {
    /// The ground of lists that are those of a program. It takes no memory.
    pub fn of(program: &'p Program, lists: Lists) -> Ground<'p>
        requires { AreSound program.now lists }
        ensures program { result.program ≡ program.now }
        ensures methods { result.methods ≡ map nodes_of lists.methods.items }
        ensures sites { result.sites ≡ lists.sites.items }
        ensures holders { result.holders ≡ holders_of lists }
        ensures facts { HasFacts lists result.facts }
    {
        let mut ordered = lists;
        put_in_order(&mut ordered);
        Ground {
            program,
            lists: ordered,
        }
    }

    /// What holds of each ground: its methods are methods of the program, no site has two numbers, each site that may be held has one, and targets of
    /// calls are methods of the program. It does nothing.
    pub fn well_formed(&self)
        ensures methods { (l : RuleMethod) → Contains self.now.methods l → IsWholeMethod self.now.program l.method.0 l }
        ensures sites { IsWithoutDoubles self.now.sites }
        ensures held { (h : Holder) (s : RuleSite) → Contains self.now.facts (may_hold h s) → (number : ℕ) × (slice_get self.now.sites number ≡ Some s) }
        ensures targets { (call : RuleNodeRef) (m : RuleMethodNo) → Contains self.now.facts (may_call call m) → IsMethodNumber self.now.program m.0 }
    {
        let _count = self.lists.methods.len();
    }

    /// The program.
    pub fn program(&self) -> &'p Program
        ensures { result.now ≡ self.now.program }
    {
        self.program
    }

    /// How many methods may run and have code.
    pub fn method_count(&self) -> usize
        ensures { result ≡ length self.now.methods }
    {
        self.lists.methods.len()
    }

    /// The method at a place among those that may run and have code.
    pub fn method(&self, place: usize) -> &LoweredMethod
        requires { place < length self.now.methods }
        ensures { slice_get self.now.methods place ≡ Some result.now }
    {
        &self.lists.methods[place].method
    }

    /// The place of the method of a number among those that may run and have code; `None` where it is none of them.
    pub fn place_of_method(&self, number: MethodNo) -> Option<usize>
        ensures { (place : ℕ) → (result ≡ Some place) ↔ IsPlaceOfMethod self.now number place }
    {
        number_place(&self.lists.numbers, number)
    }

    /// The place of a node; `None` where it is no node of a method that may run and has code.
    pub fn place_of_node(&self, node: NodeRef) -> Option<NodePlace>
        ensures { (at : RuleNodePlace) → (result ≡ Some at) ↔ IsPlaceOfNode self.now node at }
    {
        let Some(number) = node.method else {
            return None;
        };
        let Some(method) = self.place_of_method(number) else {
            return None;
        };
        self.place_in_method(method, node.offset)
    }

    /// The place of the node at an offset of the method at a place.
    fn place_in_method(&self, method: usize, offset: u32) -> Option<NodePlace>
        requires { method < length self.now.methods }
        ensures { (at : RuleNodePlace) → (result ≡ Some at) ↔ IsPlaceInMethod self.now method offset at }
    {
        match place_of(&self.lists.methods[method].method, offset) {
            Some(node) => Some(NodePlace { method, node }),
            None => None,
        }
    }

    /// The node at a place.
    pub fn node(&self, at: NodePlace) -> &Node
        requires { HasNode self.now at }
        ensures { IsNodeAt self.now at result.now }
    {
        &self.method(at.method).nodes.as_slice()[at.node]
    }

    /// How many sites there are.
    pub fn site_count(&self) -> usize
        ensures { result ≡ length self.now.sites }
    {
        self.lists.sites.len()
    }

    /// The site of a number.
    pub fn site(&self, site: SiteNo) -> &Site
        requires { site.0 < length self.now.sites }
        ensures { slice_get self.now.sites site.0 ≡ Some result.now }
    {
        &self.lists.sites[site.0 as usize]
    }

    /// How many places there are.
    pub fn place_count(&self) -> usize
        ensures { result ≡ length self.now.holders }
    {
        self.lists.places.len()
    }

    /// The place of a number.
    pub fn place(&self, place: PlaceNo) -> Place
        requires { place.0 < length self.now.holders }
        ensures { (h : Holder) → slice_get self.now.holders place.0 ≡ Some h → IsHolderIn self.now.sites result h }
    {
        *self.lists.places.get_index(place.0 as usize).unwrap()
    }

    /// The variable of a slot at a node.
    pub fn variable(&self, at: NodePlace, slot: u32) -> Variable
        requires { HasNode self.now at }
        ensures { (l : RuleMethod) (n : RuleNode) → slice_get self.now.methods at.method ≡ Some l → slice_get l.nodes at.node ≡ Some n → IsVariable l n slot result }
    {
        let named = &self.lists.methods[at.method];
        let node = place_number(&named.method, at.node);
        named.names.variable(node, slot)
    }

    /// The place of a slot at a node; `None` where nothing is known of it, so that it refers to no object.
    pub fn place_of_slot(&self, at: NodePlace, slot: u32) -> Option<PlaceNo>
        requires { HasNode self.now at }
        ensures holder { (h : Holder) × IsSlotOf self.now at slot h }
        ensures found { IfSome result (λ place. (h : Holder) → IsSlotOf self.now at slot h → slice_get self.now.holders place.0 ≡ Some h) }
        ensures none { IfNone result ((h : Holder) → IsSlotOf self.now at slot h → AreSitesOf self.now h []) }
    {
        self.well_formed();
        self.place_with(self.variable(at, slot))
    }

    /// The place of a variable.
    fn place_with(&self, variable: Variable) -> Option<PlaceNo>
        ensures found { IfSome result (λ place. slice_get self.now.holders place.0 ≡ Some (variable_holder variable)) }
        ensures none { IfNone result (AreSitesOf self.now (variable_holder variable) []) }
    {
        let _count = self.lists.places.len();
        match self.lists.places.get_index_of(&Place::Variable(variable)) {
            Some(number) => Some(PlaceNo(number as u32)),
            None => None,
        }
    }

    /// The sites of the objects that a place may hold, in the order of their numbers.
    pub fn sites_at(&self, place: PlaceNo) -> &[SiteNo]
        ensures sites { (h : Holder) → slice_get self.now.holders place.0 ≡ Some h → AreSitesOf self.now h result.now }
        ensures ascend { DoAscend site_number result.now }
        ensures within { (site : RuleSiteNo) → Contains result.now site → site.0 < length self.now.sites }
    {
        self.lists.held.get(place.0)
    }

    /// The sites of the objects that a slot may refer to at a node, in the order of their numbers.
    pub fn sites_of_slot(&self, at: NodePlace, slot: u32) -> &[SiteNo]
        requires { HasNode self.now at }
        ensures holder { (h : Holder) × IsSlotOf self.now at slot h }
        ensures sites { (h : Holder) → IsSlotOf self.now at slot h → AreSitesOf self.now h result.now }
        ensures ascend { DoAscend site_number result.now }
        ensures within { (site : RuleSiteNo) → Contains result.now site → site.0 < length self.now.sites }
    {
        match self.place_of_slot(at, slot) {
            Some(place) => self.sites_at(place),
            None => &[],
        }
    }

    /// The sites of the objects that a method may throw, in the order of their numbers.
    pub fn sites_thrown_by(&self, method: MethodNo) -> &[SiteNo]
        ensures sites { AreSitesOf self.now (thrown_by method) result.now }
        ensures ascend { DoAscend site_number result.now }
        ensures within { (site : RuleSiteNo) → Contains result.now site → site.0 < length self.now.sites }
    {
        let _count = self.lists.places.len();
        match self.lists.places.get_index_of(&Place::Thrown(method)) {
            Some(number) => self.sites_at(PlaceNo(number as u32)),
            None => &[],
        }
    }

    /// Whether a place may hold an object of a site.
    pub fn holds(&self, place: PlaceNo, site: SiteNo) -> bool
        ensures { (h : Holder) (s : RuleSite) → slice_get self.now.holders place.0 ≡ Some h → slice_get self.now.sites site.0 ≡ Some s
            → IsTrue result ↔ Contains self.now.facts (may_hold h s) }
    {
        self.well_formed();
        is_among(self.sites_at(place), site)
    }

    /// Whether a place may hold objects of a site and of no other.
    pub fn holds_alone(&self, place: PlaceNo, site: SiteNo) -> bool
        ensures { (h : Holder) (s : RuleSite) → slice_get self.now.holders place.0 ≡ Some h → slice_get self.now.sites site.0 ≡ Some s
            → IsTrue result ↔ HoldsAlone self.now h s }
    {
        self.well_formed();
        is_alone(self.sites_at(place), site)
    }

    /// Whether a method may run.
    pub fn may_run(&self, method: MethodNo) -> bool
        ensures { IsTrue result ↔ Contains self.now.facts (may_run method) }
    {
        self.lists.running.contains(&method)
    }

    /// The methods that may run, each once.
    pub fn running(&self) -> &[MethodNo]
        ensures { (m : RuleMethodNo) → Contains result.now m ↔ Contains self.now.facts (may_run m) }
    {
        self.lists.running.as_slice()
    }

    /// The methods to which a call may go, in the order of their numbers.
    pub fn targets_of(&self, call: NodeRef) -> &[MethodNo]
        ensures targets { (m : RuleMethodNo) → Contains result.now m ↔ Contains self.now.facts (may_call call m) }
        ensures ascend { DoAscend method_number result.now }
    {
        match call_number(&self.lists.calls, call) {
            Some(number) => self.lists.targets.at(number),
            None => &[],
        }
    }

    /// The calls that may go to a method, each once.
    pub fn calls(&self) -> &[NodeRef]
        ensures { (call : RuleNodeRef) → Contains result.now call ↔ MayGoOn self.now call }
    {
        self.lists.calls.as_slice()
    }

    /// Whether a method, or one that it calls or starts, may write an instance field.
    pub fn may_write(&self, method: MethodNo, field: FieldNo) -> bool
        ensures { IsTrue result ↔ Contains self.now.facts (may_write method field) }
    {
        self.lists.writes.contains(&FieldWrite { method, field })
    }

    /// The methods with the instance fields that they may write, each once.
    pub fn writes(&self) -> &[FieldWrite]
        ensures { (w : RuleWrite) → Contains result.now w ↔ Contains self.now.facts (may_write w.method w.field) }
    {
        self.lists.writes.as_slice()
    }
}
