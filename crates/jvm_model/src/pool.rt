//! The entries of a constant pool (JVMS 4.4).

ghost use Rattle.std.specs.Prelude.{◌≡◌};
ghost use Rattle.jvm_model.specs.Soundness.{is_of_kind};

use crate::sequence::Bytes;

/// An entry of the constant pool, by its tag. A u16 is an index into the pool, which counts from 1.
#[derive(Debug, Drop)]
pub enum PoolEntry {
    /// Tag 1: the bytes of a text, in modified UTF-8 (JVMS 4.4.7).
    Utf8(Bytes),
    /// Tag 3: the bits of an int (JVMS 4.4.4).
    Integer(u32),
    /// Tag 4: the bits of a float (JVMS 4.4.4).
    Float(u32),
    /// Tag 5: the bits of a long, which takes two indices (JVMS 4.4.5).
    Long(u64),
    /// Tag 6: the bits of a double, which takes two indices (JVMS 4.4.5).
    Double(u64),
    /// Tag 7: the name of a class or interface (JVMS 4.4.1).
    Class(u16),
    /// Tag 8: the text of a string constant (JVMS 4.4.3).
    Str(u16),
    /// Tag 9: a class, and the name and descriptor of a field (JVMS 4.4.2).
    Fieldref { class: u16, member: u16 },
    /// Tag 10: a class, and the name and descriptor of a method (JVMS 4.4.2).
    Methodref { class: u16, member: u16 },
    /// Tag 11: an interface, and the name and descriptor of a method (JVMS 4.4.2).
    InterfaceMethodref { class: u16, member: u16 },
    /// Tag 12: a name and a descriptor (JVMS 4.4.6).
    NameAndType { name: u16, descriptor: u16 },
    /// Tag 15: a kind, and the member that the handle is for (JVMS 4.4.8).
    MethodHandle { kind: u8, reference: u16 },
    /// Tag 16: the descriptor of a method (JVMS 4.4.9).
    MethodType(u16),
    /// Tag 18: a bootstrap method, and the name and descriptor of a method (JVMS 4.4.10).
    InvokeDynamic { bootstrap: u16, member: u16 },
    /// The second index of a Long or a Double. It has no tag and no bytes.
    Taken,
}

/// A kind of entry that an index may have to lead to.
#[derive(Clone, Copy, Debug, PartialEq, Eq)]
pub enum EntryKind {
    /// CONSTANT_Utf8.
    Text,
    /// CONSTANT_Class.
    Class,
    /// CONSTANT_Fieldref.
    Field,
    /// CONSTANT_Methodref.
    Method,
    /// CONSTANT_InterfaceMethodref.
    InterfaceMethod,
    /// CONSTANT_NameAndType.
    NameAndType,
    /// CONSTANT_Integer.
    Integer,
    /// CONSTANT_Float.
    Float,
    /// CONSTANT_Long.
    Long,
    /// CONSTANT_Double.
    Double,
    /// CONSTANT_String.
    Str,
    /// CONSTANT_MethodHandle.
    MethodHandle,
    /// CONSTANT_MethodType.
    MethodType,
    /// CONSTANT_InvokeDynamic.
    InvokeDynamic,
}

impl EntryKind {
    /// Whether an entry is of the kind.
    pub fn is_of(self, entry: &PoolEntry) -> bool
        ensures { result ≡ is_of_kind self entry.now }
    {
        match self {
            EntryKind::Text => matches!(entry, PoolEntry::Utf8(_)),
            EntryKind::Class => matches!(entry, PoolEntry::Class(_)),
            EntryKind::Field => matches!(entry, PoolEntry::Fieldref { .. }),
            EntryKind::Method => matches!(entry, PoolEntry::Methodref { .. }),
            EntryKind::InterfaceMethod => matches!(entry, PoolEntry::InterfaceMethodref { .. }),
            EntryKind::NameAndType => matches!(entry, PoolEntry::NameAndType { .. }),
            EntryKind::Integer => matches!(entry, PoolEntry::Integer(_)),
            EntryKind::Float => matches!(entry, PoolEntry::Float(_)),
            EntryKind::Long => matches!(entry, PoolEntry::Long(_)),
            EntryKind::Double => matches!(entry, PoolEntry::Double(_)),
            EntryKind::Str => matches!(entry, PoolEntry::Str(_)),
            EntryKind::MethodHandle => matches!(entry, PoolEntry::MethodHandle { .. }),
            EntryKind::MethodType => matches!(entry, PoolEntry::MethodType(_)),
            EntryKind::InvokeDynamic => matches!(entry, PoolEntry::InvokeDynamic { .. }),
        }
    }
}
