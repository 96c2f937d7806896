//! What calls do to the facts of a site.

use access_paths::{Path, PathSet, Root};
use jvm_model::number::{FieldNo, MethodNo};
use jvm_model::{Automaton, Bytes, Event, Sequence, Site, SiteKind};
use op_model::{Call, CallKind};
use stage_calls::{call_facts, entered, left};
use stage_facts::{PlainFact, PlainTuple};
use stage_views::{Entering, NodeSlots, StageSetting};
use std::alloc::{AllocError, Global};
use std::test::Fail;

/// Five slots, each with a variable of its own. Any of them may refer to objects of all sites, and no field is written.
struct FiveSlots;

impl NodeSlots for FiveSlots {
    ghost knows = { λ slots w l n. ⊥ };

    fn locals(&self) -> u32 {
        4
    }

    fn slots(&self) -> u32 {
        5
    }

    fn share(&self, first: u32, second: u32) -> bool {
        first == second
    }

    fn may_refer(&self, _slot: u32) -> bool {
        true
    }

    fn refers_to_no_other(&self, _slot: u32) -> bool {
        false
    }

    fn may_write(&self, _target: MethodNo, _field: FieldNo) -> bool {
        false
    }
}

fn bytes(alloc: Global, text: &[u8]) -> Result<Bytes, AllocError> {
    Ok(Sequence::from_vec(Vec::from_slice(alloc, text)?))
}

/// A call of close on the object in slot 3, with the one in slot 1 as its second unit.
fn close(alloc: Global) -> Result<Call, AllocError> {
    let name = bytes(alloc, b"close")?;
    let descriptor = bytes(alloc, b"(Ljava/lang/Object;)V")?;
    let arguments = Vec::from_slice(alloc, &[Some(3), Some(1)])?;
    Ok(Call {
        kind: CallKind::Virtual,
        resolved: MethodNo(0),
        chosen: None,
        name,
        descriptor,
        arguments: Sequence::from_vec(arguments),
        result: None,
    })
}

/// A property whose only event is close, which leads to state 1.
fn closed_once(alloc: Global) -> Result<Automaton, AllocError> {
    let name = bytes(alloc, b"close")?;
    let descriptor = bytes(alloc, b"(Ljava/lang/Object;)V")?;
    let next = bytes(alloc, &[1, 1])?;
    let mut events = Vec::with_capacity(alloc, 1)?;
    events.push(Event {
        name,
        descriptor,
        next,
    })?;
    let class_name = bytes(alloc, b"File")?;
    Ok(Automaton {
        class_name,
        states: Sequence::from_vec(Vec::new(alloc)),
        initial: 0,
        error: 1,
        events: Sequence::from_vec(events),
    })
}

fn site(alloc: Global) -> Result<Site, AllocError> {
    Ok(Site {
        kind: SiteKind::New,
        method: Some(MethodNo(0)),
        offset: 0,
        class: bytes(alloc, b"File")?,
    })
}

/// One of several objects, in state 0, to which these slots refer.
fn object_in(slots: &[u32], may: bool) -> PlainFact {
    let mut must = PathSet::empty();
    for slot in slots {
        must = must.add(&Path::new(Root::Slot(*slot))).set;
    }
    PlainFact::OfObject(PlainTuple {
        unique: false,
        state: 0,
        must,
        may,
        must_not: PathSet::empty(),
    })
}

/// The state, how many paths refer to the object, whether others may, and how many paths do not.
fn parts(fact: Option<&PlainFact>) -> Option<(u8, usize, bool, usize)> {
    match fact? {
        PlainFact::NoneYet => None,
        PlainFact::SomeYet => None,
        PlainFact::OfObject(tuple) => Some((
            tuple.state,
            tuple.must.len(),
            tuple.may,
            tuple.must_not.len(),
        )),
    }
}

#[test]
fn calls_change_facts(rt: HostRuntime) -> Result<(), Fail> {
    let automaton = closed_once(rt.alloc())?;
    let site = site(rt.alloc())?;
    let call = close(rt.alloc())?;
    let setting = StageSetting {
        automaton: &automaton,
        site: &site,
        stage: 4,
        depth: 3,
    };
    let by = Entering::Call(&call);
    let before = object_in(&[1, 2], true);
    let facts = call_facts(&setting, &FiveSlots, &call, &before);
    assert_eq!(rt;
        [parts(facts.get(0)), parts(facts.get(1))],
        [Some((1, 3, true, 0)), Some((0, 2, true, 1))]
    );
    let inside = entered(&setting, by, &before);
    assert_eq!(rt; parts(Some(&inside)), Some((0, 1, true, 0)));
    let after = left(
        &setting,
        &FiveSlots,
        by,
        MethodNo(0),
        &before,
        &object_in(&[0], false),
    );
    assert_eq!(rt; parts(Some(&after)), Some((0, 1, true, 0)));
    Ok(())
}
