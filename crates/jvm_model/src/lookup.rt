//! What an index of the constant pool stands for. The functions take the pool as a slice, whose first
//! entry has the index 1, and answer `None` where the index is out of range or of another kind.

ghost use Rattle.std.specs.Prelude.{◌≡◌, option_map};
ghost use Rattle.jvm_model.specs.Lookups.{entry_at, lent_reference, lent_signature, text_at, class_name_at, signature_at, method_at};
ghost use Rattle.jvm_model.specs.Instructions.{member_at, member_in};
ghost use Rattle.std.specs.List.{list_any};
ghost use Rattle.jvm_model.specs.declared.pool.EntryKind.{EntryKind};
ghost use Rattle.jvm_model.specs.Programs.{is_class_initialiser};
ghost use Rattle.jvm_model.specs.Soundness.{is_of_kind, leads_to};

use crate::pool::{EntryKind, PoolEntry};

/// A name and a descriptor, as bytes.
#[derive(Clone, Copy, Debug)]
pub struct Signature<'a> {
    pub name: &'a [u8],
    pub descriptor: &'a [u8],
}

impl Signature<'_> {
    /// Whether the method of this name and descriptor is the initialiser of its class: `<clinit>` of `()V` (JVMS 2.9).
    pub fn is_class_initialiser(self) -> bool
        ensures { result ≡ is_class_initialiser (lent_signature self.entry) }
    {
        self.name == b"<clinit>".as_slice() && self.descriptor == b"()V".as_slice()
    }
}

/// A field or a method that is named: its class, and its name and descriptor (JVMS 5.1).
#[derive(Clone, Copy, Debug)]
pub struct MemberReference<'a> {
    pub class: &'a [u8],
    pub signature: Signature<'a>,
}

/// The entry at an index (JVMS 4.1).
pub fn entry_at(pool: &[PoolEntry], index: u16) -> Option<&PoolEntry>
    ensures { option_map (λ e. e.now) result ≡ entry_at pool.now index }
{
    let place = index.checked_sub(1)?;
    pool.get(usize::from(place))
}

/// Whether an index leads to an entry of one of these kinds (JVMS 4.4).
pub fn leads_to(pool: &[PoolEntry], allowed: &[EntryKind], index: u16) -> bool
    ensures { result ≡ leads_to pool.now allowed.now index }
{
    match entry_at(pool, index) {
        Some(entry) => is_of_any(entry, allowed),
        None => false,
    }
}

/// Whether an entry is of one of these kinds.
fn is_of_any(entry: &PoolEntry, allowed: &[EntryKind]) -> bool
    ensures { result ≡ list_any (λ (k : EntryKind). is_of_kind k entry.now) allowed.now }
{
    allowed.iter().any(|kind| kind.is_of(entry))
}

/// The bytes of the Utf8 entry at an index (JVMS 4.4.7).
pub fn text_at(pool: &[PoolEntry], index: u16) -> Option<&[u8]>
    ensures { option_map (λ text. text.now) result ≡ text_at pool.now index }
{
    match entry_at(pool, index)? {
        PoolEntry::Utf8(bytes) => Some(bytes.as_slice()),
        _ => None,
    }
}

/// The name of the Class entry at an index (JVMS 4.4.1).
pub fn class_name_at(pool: &[PoolEntry], index: u16) -> Option<&[u8]>
    ensures { option_map (λ name. name.now) result ≡ class_name_at pool.now index }
{
    match entry_at(pool, index)? {
        PoolEntry::Class(name) => text_at(pool, *name),
        _ => None,
    }
}

/// The name and the descriptor of the NameAndType entry at an index (JVMS 4.4.6).
pub fn signature_at(pool: &[PoolEntry], index: u16) -> Option<Signature<'_>>
    ensures { option_map (λ s. lent_signature s) result ≡ signature_at pool.now index }
{
    match entry_at(pool, index)? {
        PoolEntry::NameAndType { name, descriptor } => {
            let name = text_at(pool, *name)?;
            let descriptor = text_at(pool, *descriptor)?;
            Some(Signature { name, descriptor })
        }
        _ => None,
    }
}

/// The field or the method that the entry at an index names (JVMS 4.4.2).
pub fn member_at(pool: &[PoolEntry], index: u16) -> Option<MemberReference<'_>>
    ensures { option_map (λ m. lent_reference m) result ≡ member_at pool.now index }
{
    match entry_at(pool, index)? {
        PoolEntry::Fieldref { class, member } => member_in(pool, *class, *member),
        PoolEntry::Methodref { class, member } => member_in(pool, *class, *member),
        PoolEntry::InterfaceMethodref { class, member } => member_in(pool, *class, *member),
        _ => None,
    }
}

/// The member of the class and the signature that stand at two indices.
fn member_in(pool: &[PoolEntry], class: u16, signature: u16) -> Option<MemberReference<'_>>
    ensures { option_map (λ m. lent_reference m) result ≡ member_in pool.now class signature }
{
    let class = class_name_at(pool, class)?;
    let signature = signature_at(pool, signature)?;
    Some(MemberReference { class, signature })
}

/// The method that the Methodref entry at an index names (JVMS 4.4.2).
pub fn method_at(pool: &[PoolEntry], index: u16) -> Option<MemberReference<'_>>
    ensures { option_map (λ m. lent_reference m) result ≡ method_at pool.now index }
{
    match entry_at(pool, index)? {
        PoolEntry::Methodref {
            class,
            member: signature,
        } => {
            let class = class_name_at(pool, *class)?;
            let signature = signature_at(pool, *signature)?;
            Some(MemberReference { class, signature })
        }
        _ => None,
    }
}
