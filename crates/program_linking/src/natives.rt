//! The native methods of a class file, which patches describe.

ghost use Rattle.std.specs.Prelude.{◌≡◌, ◌++◌, IfOk, OnOk, IfErr};
ghost use Rattle.std.specs.List.{list_any};
ghost use Rattle.program_linking.specs.Patching.{static_key, member_key, described_key, native_key, native_keys};
ghost use Rattle.program_linking.specs.TooLarge.{TellsTooMany};
ghost use Rattle.program_index.specs.MemberKeys.{key_of};
ghost use Rattle.jvm_model.specs.Linking.{describes};
ghost use Rattle.jvm_model.specs.Lookups.{lent_signature};
ghost use Rattle.jvm_model.specs.Programs.{signature_of};
ghost use Rattle.program_model.specs.MemberLists.{AreTooManyKeys};

use crate::keys::{signature_key, stub_signature};
use jvm_model::lookup::Signature;
use jvm_model::{AccessFlag, ClassFile, Member, PoolEntry, StubMethod};
use program_index::index_failure::IndexFailure;
use program_index::member_index::MemberIndex;
use program_index::member_key::MemberKey;
use program_index::texts::plain_text;
use std::alloc::Global;
use std::marker::Model;

/// The native methods of a class file by name, descriptor, and whether they are static. Contracts see the class file.
#[derive(Drop)]
pub(crate) struct Natives<'a> {
    class: &'a ClassFile,
    index: MemberIndex,
}

impl<'a> Model for Natives<'a> {
    ghost use Rattle.std.specs.Prelude.{◌≡◌};
    ghost use Rattle.jvm_model.specs.declared.class_file.ClassFile.{ClassFile};
    ghost use Rattle.program_linking.specs.Patching.{native_keys};

    ghost Value = { ClassFile };

    ghost view = { λ n. n.class.now };

    ghost invariant = { λ n. n.index ≡ native_keys n.class.now.pool n.class.now.methods };
}

/// The key of a method, which tells in place of the number of a class whether the method is static.
fn static_key(is_static: bool, signature: Signature<'_>) -> MemberKey<'_>
    ensures { key_of result ≡ static_key is_static (lent_signature signature.entry) }
{
    signature_key(u32::from(is_static), signature)
}

/// The name and the descriptor of a method of a class file.
fn signature_of<'a>(pool: &'a [PoolEntry], member: &Member) -> Signature<'a>
    ensures { lent_signature result ≡ signature_of pool.entry.now member.now }
{
    Signature {
        name: plain_text(pool, member.name),
        descriptor: plain_text(pool, member.descriptor),
    }
}

/// The key of a method of a class file.
fn key_of_member<'a>(pool: &'a [PoolEntry], member: &Member) -> MemberKey<'a>
    ensures { key_of result ≡ member_key pool.entry.now member.now }
{
    let is_static = AccessFlag::Static.is_set_in(member.flags);
    static_key(is_static, signature_of(pool, member))
}

/// The key of the method that a stub would describe.
fn key_of_described(method: &StubMethod) -> MemberKey<'_>
    ensures { key_of result ≡ described_key method.entry.now }
{
    static_key(method.is_static, stub_signature(method))
}

/// The index of the native ones of methods.
fn native_index(
    alloc: Global,
    pool: &[PoolEntry],
    methods: &[Member],
) -> Result<MemberIndex, IndexFailure>
    ensures index { IfOk result (λ index. index ≡ native_keys pool.now methods.now) }
    ensures too_many { IfErr result (TellsTooMany (AreTooManyKeys (native_keys pool.now methods.now))) }
{
    let mut index = MemberIndex::new(alloc);
    for method in methods {
        add_native(&mut index, pool, method)?;
    }
    Ok(index)
}

/// Adds a method, if it is native.
fn add_native(
    index: &mut MemberIndex,
    pool: &[PoolEntry],
    method: &Member,
) -> Result<(), IndexFailure>
    ensures added { OnOk result (index.new ≡ index.old ++ native_key pool.now method.now) }
    ensures too_many { IfErr result (TellsTooMany (AreTooManyKeys (index.old ++ native_key pool.now method.now))) }
{
    if AccessFlag::Native.is_set_in(method.flags) {
        index.push(key_of_member(pool, method))
    } else {
        Ok(())
    }
}

impl<'a> Natives<'a> {
    /// The native methods of a class file (JVMS 4.6). The failure is `TooMany` where they, or the texts in them, have no more numbers.
    pub(crate) fn of(alloc: Global, class: &'a ClassFile) -> Result<Self, IndexFailure>
        ensures natives { IfOk result (λ natives. natives ≡ class.entry.now) }
        ensures too_many { IfErr result (TellsTooMany (AreTooManyKeys (native_keys class.entry.now.pool class.entry.now.methods))) }
    {
        let index = native_index(alloc, class.pool.as_slice(), class.methods.as_slice())?;
        Ok(Natives { class, index })
    }

    /// Whether a stub describes one of them. The time is linear in the stub's texts.
    pub(crate) fn has(&self, method: &StubMethod) -> bool
        ensures { result ≡ list_any (describes self.now.pool method.now) self.now.methods }
    {
        if method.is_abstract {
            return false;
        }
        match self.index.first(key_of_described(method)) {
            Some(_) => true,
            None => false,
        }
    }
}
