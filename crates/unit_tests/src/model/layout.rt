//! A small class file, whose places are counted by hand.

ghost use Rattle.std.specs.Prelude.{◌≡◌, ◌<◌, ◌^◌, IfOk, length};
ghost use Rattle.jvm_model.specs.Layout.{HasCodeAttribute};
ghost use Rattle.jvm_model.specs.Spelling.{spell};

use crate::seen::see;
use jvm_model::layout::{
    attributes_offset, code_place, fields_offset, flags_offset, interfaces_offset, methods_offset,
};
use jvm_model::{Attribute, ClassFile, Member, PoolEntry, Sequence};
use std::alloc::{AllocError, Global};
use std::process::Abort;

fn attribute(alloc: Global, name: u16, body: &[u8]) -> Result<Attribute, AllocError>
    ensures name { IfOk result (λ a. a.name ≡ name) }
    ensures body { IfOk result (λ a. a.body ≡ body.now) }
{
    let body = Sequence::from_vec(Vec::from_slice(alloc, body)?);
    Ok(Attribute { name, body })
}

fn member(attributes: Vec<Attribute>) -> Member
    ensures { result.attributes ≡ attributes.items }
{
    Member {
        flags: 0,
        name: 2,
        descriptor: 2,
        attributes: Sequence::from_vec(attributes),
    }
}

/// A class with an interface, a field, and two methods, of which the second has code.
fn class_of_two_methods(alloc: Global) -> Result<ClassFile, AllocError>
    ensures size { IfOk result (λ c. length (spell c) ≡ 100) }
    ensures code { IfOk result (λ c. HasCodeAttribute c 1) }
{
    let pool = vec![in alloc;
        PoolEntry::Utf8(Sequence::from_vec(Vec::from_slice(alloc, b"Code")?)),
        PoolEntry::Utf8(Sequence::from_vec(Vec::from_slice(alloc, b"A")?)),
        PoolEntry::Long(1),
        PoolEntry::Taken,
        PoolEntry::Class(2),
    ]?;
    let field = member(vec![in alloc; attribute(alloc, 2, b"abc")?]?);
    let first = member(Vec::new(alloc));
    let second = member(vec![in alloc;
        attribute(alloc, 2, b"a")?,
        attribute(alloc, 1, b"abcde")?,
    ]?);
    Ok(ClassFile {
        minor: 0,
        major: 52,
        pool: Sequence::from_vec(pool),
        flags: 0,
        this_class: 5,
        super_class: 5,
        interfaces: Sequence::from_vec(vec![in alloc; 5]?),
        fields: Sequence::from_vec(vec![in alloc; field]?),
        methods: Sequence::from_vec(vec![in alloc; first, second]?),
        attributes: Sequence::from_vec(Vec::new(alloc)),
    })
}

/// Where the parts of the class begin.
fn look_at_places(rt: &impl Abort, class: &ClassFile)
    requires size { length (spell class.now) < 2 ^ 32 }
    requires code { HasCodeAttribute class.now 1 }
{
    let places = [
        flags_offset(class),
        interfaces_offset(class),
        fields_offset(class),
        methods_offset(class),
        attributes_offset(class),
        code_place(class, 1),
    ];
    see(rt, places, [33, 41, 45, 64, 100, 93]);
}

#[test]
fn places_of_a_class(rt: HostRuntime) -> Result<(), AllocError> {
    look_at_places(&rt, &class_of_two_methods(rt.alloc())?);
    Ok(())
}
