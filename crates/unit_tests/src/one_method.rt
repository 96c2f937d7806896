//! A class with one method whose code is given, which is sound.

ghost use Rattle.std.specs.Prelude.{codes, ◌≡◌, ◌∷◌, [], ◌<◌, ◌^◌, length, IfOk};
ghost use Rattle.jvm_model.specs.declared.pool.PoolEntry.TheVariants as entries;
ghost use Rattle.jvm_model.specs.Layout.{HasCodeAttribute};
ghost use Rattle.jvm_model.specs.Soundness.{IsSoundClass};
ghost use Rattle.jvm_model.specs.Spelling.{spell};

use jvm_model::{Attribute, Bytes, ClassFile, Member, PoolEntry, Sequence};
use std::alloc::{AllocError, Global};

/// A copy of a text.
fn copied(alloc: Global, text: &[u8]) -> Result<Bytes, AllocError>
    ensures { IfOk result (λ copy. copy ≡ text.now) }
{
    Ok(Sequence::from_vec(Vec::from_slice(alloc, text)?))
}

/// The constant pool of a class A: the names of code, of the class and of a method, a descriptor, and the class.
fn entries(alloc: Global) -> Result<Sequence<PoolEntry>, AllocError>
    ensures { IfOk result (λ pool. pool ≡ entries.Utf8 (codes "Code") ∷ entries.Utf8 (codes "A") ∷ entries.Utf8 (codes "m") ∷ entries.Utf8 (codes "()V") ∷ entries.Class 2 ∷ []) }
{
    let entries = vec![in alloc;
        PoolEntry::Utf8(copied(alloc, b"Code")?),
        PoolEntry::Utf8(copied(alloc, b"A")?),
        PoolEntry::Utf8(copied(alloc, b"m")?),
        PoolEntry::Utf8(copied(alloc, b"()V")?),
        PoolEntry::Class(2),
    ]?;
    Ok(Sequence::from_vec(entries))
}

/// A static method whose code has this body.
fn method(alloc: Global, body: &[u8]) -> Result<Member, AllocError>
    ensures { IfOk result (λ m. m ≡ record { flags = 8; name = 3; descriptor = 4; attributes = record { name = 1; body = body.now } ∷ [] }) }
{
    let code = Attribute {
        name: 1,
        body: copied(alloc, body)?,
    };
    Ok(Member {
        flags: 8,
        name: 3,
        descriptor: 4,
        attributes: Sequence::from_vec(vec![in alloc; code]?),
    })
}

/// A class with one method, whose code has this body.
pub fn class_of(alloc: Global, body: &[u8]) -> Result<ClassFile, AllocError>
    requires { length body.now < 2 ^ 16 }
    ensures sound { IfOk result IsSoundClass }
    ensures size { IfOk result (λ c. length (spell c) < 2 ^ 32) }
    ensures code { IfOk result (λ c. HasCodeAttribute c 0) }
{
    let pool = entries(alloc)?;
    let method = method(alloc, body)?;
    Ok(ClassFile {
        minor: 0,
        major: 52,
        pool,
        flags: 0,
        this_class: 5,
        super_class: 5,
        interfaces: Sequence::from_vec(Vec::new(alloc)),
        fields: Sequence::from_vec(Vec::new(alloc)),
        methods: Sequence::from_vec(vec![in alloc; method]?),
        attributes: Sequence::from_vec(Vec::new(alloc)),
    })
}
