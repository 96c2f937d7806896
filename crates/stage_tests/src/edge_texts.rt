//! Path edges as lines.

use access_paths::{Fields, Path, PathSet, Root};
use edge_lines::{EdgeText, push_edge_line};
use jvm_model::{FieldNo, MethodNo, Sequence, Site, SiteKind};
use op_model::Spot;
use stage_facts::{PlainFact, PlainTuple};
use std::alloc::{AllocError, Global};
use std::process::Abort;
use std::test::Fail;

/// A site in a method, whose class has a name of one letter.
fn site(alloc: Global) -> Result<Site, AllocError> {
    Ok(Site {
        kind: SiteKind::New,
        method: Some(MethodNo(4)),
        offset: 0,
        class: Sequence::from_vec(Vec::from_array(alloc, [b'F'])?),
    })
}

/// What is known of an object to which a slot refers and a field behind another one, and to which a static field does not refer.
fn held() -> PlainFact {
    let slot = PathSet::empty().add(&Path::new(Root::Slot(0))).set;
    let field = Path::along(Root::Slot(3), Fields::One(FieldNo(7)));
    PlainFact::OfObject(PlainTuple {
        unique: true,
        state: 2,
        must: slot.add(&field).set,
        may: false,
        must_not: PathSet::empty()
            .add(&Path::new(Root::Static(FieldNo(2))))
            .set,
    })
}

/// What is known of an object that is returned or thrown.
fn leaving() -> PlainFact {
    let returned = PathSet::empty().add(&Path::new(Root::Returned)).set;
    PlainFact::OfObject(PlainTuple {
        unique: false,
        state: 10,
        must: returned.add(&Path::new(Root::Thrown)).set,
        may: true,
        must_not: PathSet::empty(),
    })
}

/// The line of an edge of the site at the third stage.
fn line(
    alloc: Global,
    method: Option<MethodNo>,
    entry: &PlainFact,
    spot: Spot,
    fact: &PlainFact,
) -> Result<Vec<u8>, AllocError> {
    let site = site(alloc)?;
    let edge = EdgeText {
        stage: 3,
        site: &site,
        method,
        entry,
        spot,
        fact,
    };
    let mut text = Vec::new(alloc);
    push_edge_line(&mut text, &edge)?;
    Ok(text)
}

#[test]
fn the_first_edge_is_a_line(rt: HostRuntime) -> Result<(), Fail> {
    let none = PlainFact::NoneYet;
    let text = line(rt.alloc(), None, &none, Spot::Node(0), &none)?;
    assert!(rt; text.as_slice() == b"edge 3 n 4 0 F boot none 0 none\n".as_slice());
    Ok(())
}

#[test]
fn an_edge_with_an_object_is_a_line(rt: HostRuntime) -> Result<(), Fail> {
    let method = Some(MethodNo(4));
    let text = line(
        rt.alloc(),
        method,
        &PlainFact::SomeYet,
        Spot::Node(11),
        &held(),
    )?;
    assert!(rt; text.as_slice() == b"edge 3 n 4 0 F 4 some 11 t 1 2 0 v0,v3.7 s2\n".as_slice());
    Ok(())
}

#[test]
fn an_edge_to_a_throw_is_a_line(rt: HostRuntime) -> Result<(), Fail> {
    let method = Some(MethodNo(12));
    let text = line(rt.alloc(), method, &held(), Spot::Thrown, &leaving())?;
    assert!(rt;
        text.as_slice()
            == b"edge 3 n 4 0 F 12 t 1 2 0 v0,v3.7 s2 exc t 0 10 1 ret,exc -\n".as_slice()
    );
    Ok(())
}
