//! Access flags of classes and members (JVMS 4.1, 4.5, 4.6).

ghost use Rattle.std.specs.Prelude.{◌≡◌};
ghost use Rattle.jvm_model.specs.Access.{mask_of, has_flag};

/// An access flag of a class or a member.
#[derive(Clone, Copy, Debug, PartialEq, Eq)]
pub enum AccessFlag {
    /// ACC_PUBLIC, 0x0001.
    Public,
    /// ACC_PRIVATE, 0x0002.
    Private,
    /// ACC_PROTECTED, 0x0004.
    Protected,
    /// ACC_STATIC, 0x0008.
    Static,
    /// ACC_NATIVE, 0x0100.
    Native,
    /// ACC_INTERFACE, 0x0200: of a class alone.
    Interface,
    /// ACC_ABSTRACT, 0x0400.
    Abstract,
}

impl AccessFlag {
    /// The flag's bit, as a mask.
    pub fn mask(self) -> u16
        ensures { result ≡ mask_of self }
    {
        match self {
            AccessFlag::Public => 0x0001,
            AccessFlag::Private => 0x0002,
            AccessFlag::Protected => 0x0004,
            AccessFlag::Static => 0x0008,
            AccessFlag::Native => 0x0100,
            AccessFlag::Interface => 0x0200,
            AccessFlag::Abstract => 0x0400,
        }
    }

    /// Whether the flag is set in an item's access flags.
    pub fn is_set_in(self, flags: u16) -> bool
        ensures { result ≡ has_flag flags self }
    {
        flags & self.mask() != 0
    }
}
