//! What nodes, throws and described methods do to facts, once each.

use access_paths::{Path, PathSet, Root};
use jvm_model::{Automaton, Bytes, FieldNo, MethodNo, Sequence, Site, SiteKind};
use op_model::{Call, CallKind, Node, Op};
use stage_facts::{PlainFact, PlainTuple};
use stage_flow::{after_answer, after_exception, after_node, after_raise};
use stage_views::{Answer, Facts, NodeSlots, StageSetting};
use std::alloc::Global;

/// Two local variables and two units of the stack, each with a variable of its own. It is said of no method.
struct Apart;

impl NodeSlots for Apart {
    ghost knows = { λ s w l n. ⊥ };

    fn locals(&self) -> u32 {
        2
    }

    fn slots(&self) -> u32 {
        4
    }

    fn share(&self, first: u32, second: u32) -> bool {
        first == second
    }

    fn may_refer(&self, _slot: u32) -> bool {
        true
    }

    fn refers_to_no_other(&self, _slot: u32) -> bool {
        true
    }

    fn may_write(&self, _target: MethodNo, _field: FieldNo) -> bool {
        true
    }
}

fn no_bytes(alloc: Global) -> Bytes {
    Sequence::from_vec(Vec::new(alloc))
}

/// A property of two states.
fn property(alloc: Global) -> Automaton {
    Automaton {
        class_name: no_bytes(alloc),
        states: Sequence::from_vec(Vec::new(alloc)),
        initial: 1,
        error: 0,
        events: Sequence::from_vec(Vec::new(alloc)),
    }
}

/// The site of the facts.
fn site(alloc: Global) -> Site {
    Site {
        kind: SiteKind::New,
        method: None,
        offset: 0,
        class: no_bytes(alloc),
    }
}

fn node(alloc: Global, op: Op) -> Node {
    Node {
        offset: 0,
        op,
        successors: Sequence::from_vec(Vec::new(alloc)),
        handlers: Sequence::from_vec(Vec::new(alloc)),
        trigger: None,
        throws: Sequence::from_vec(Vec::new(alloc)),
    }
}

/// What is known of an object in the first local variable.
fn held() -> PlainFact {
    PlainFact::OfObject(PlainTuple {
        unique: true,
        state: 1,
        must: PathSet::empty().add(&Path::new(Root::Slot(0))).set,
        may: false,
        must_not: PathSet::empty(),
    })
}

/// How many paths lead to the object of the fact at a place, whether the root is one, and whether other cells may hold the object.
fn known(facts: &Facts, index: u8, root: Root) -> (usize, bool, bool) {
    match facts.get(index) {
        Some(PlainFact::OfObject(tuple)) => (
            tuple.must.len(),
            tuple.must.contains(&Path::new(root)),
            tuple.may,
        ),
        _ => (0, false, false),
    }
}

/// The last stage.
fn last_stage<'s>(automaton: &'s Automaton, site: &'s Site) -> StageSetting<'s> {
    StageSetting {
        automaton,
        site,
        stage: 4,
        depth: 3,
    }
}

/// What is known once the object is returned.
fn returned(alloc: Global) -> (usize, bool, bool) {
    let (automaton, site) = (property(alloc), site(alloc));
    let setting = last_stage(&automaton, &site);
    let node = node(alloc, Op::Return { value: Some(0) });
    let facts = after_node(&setting, &Apart, &node, &held());
    known(&facts, 0, Root::Returned)
}

/// What a handler knows of the object that is thrown.
fn caught(alloc: Global) -> (usize, bool, bool) {
    let (automaton, site) = (property(alloc), site(alloc));
    let setting = last_stage(&automaton, &site);
    let node = node(alloc, Op::Throw { value: 0 });
    let facts = after_raise(&setting, &Apart, &node, Some(8), &held());
    known(&facts, 0, Root::Slot(2))
}

/// What is known out of the method, where the object was kept and is thrown.
fn kept(alloc: Global) -> (usize, bool, bool) {
    let (automaton, site) = (property(alloc), site(alloc));
    let setting = last_stage(&automaton, &site);
    let node = node(alloc, Op::Throw { value: 0 });
    let facts = after_exception(&setting, &Apart, &node, &[0], None, &held());
    known(&facts, 0, Root::Thrown)
}

/// What is known of the new object that a method gives.
fn given(alloc: Global) -> (usize, bool, bool) {
    let (automaton, site) = (property(alloc), site(alloc));
    let setting = last_stage(&automaton, &site);
    let call = call(alloc);
    let facts = after_answer(
        &setting,
        &Apart,
        &call,
        &[],
        Answer::Own,
        &PlainFact::NoneYet,
    );
    known(&facts, 1, Root::Slot(2))
}

/// A call whose result gets to the stack.
fn call(alloc: Global) -> Call {
    Call {
        kind: CallKind::Static,
        resolved: MethodNo(0),
        chosen: None,
        name: no_bytes(alloc),
        descriptor: no_bytes(alloc),
        arguments: Sequence::from_vec(Vec::new(alloc)),
        result: Some(2),
    }
}

#[test]
fn a_value_is_returned(rt: HostRuntime) {
    assert_eq!(rt; returned(rt.alloc()), (1, true, false));
}

#[test]
fn an_object_is_caught(rt: HostRuntime) {
    assert_eq!(rt; caught(rt.alloc()), (2, true, false));
}

#[test]
fn an_object_is_kept_and_thrown(rt: HostRuntime) {
    assert_eq!(rt; kept(rt.alloc()), (1, true, true));
}

#[test]
fn a_method_gives_a_new_object(rt: HostRuntime) {
    assert_eq!(rt; given(rt.alloc()), (1, true, false));
}
