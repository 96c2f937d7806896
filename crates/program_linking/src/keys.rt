//! What tells the methods of one class apart: their names and descriptors (JVMS 4.6).

ghost use Rattle.std.specs.Prelude.{◌≡◌};
ghost use Rattle.program_index.specs.MemberKeys.{key_of};
ghost use Rattle.jvm_model.specs.Lookups.{lent_signature};
ghost use Rattle.jvm_model.specs.Stubs.{stub_signature};
ghost use Rattle.program_linking.specs.Patching.{signature_key};

use jvm_model::lookup::Signature;
use jvm_model::{ClassNo, StubMethod};
use program_index::member_key::MemberKey;

/// The name and the descriptor of the method that a stub describes.
pub(crate) fn stub_signature(method: &StubMethod) -> Signature<'_>
    ensures { lent_signature result ≡ stub_signature method.entry.now }
{
    Signature {
        name: method.name.as_slice(),
        descriptor: method.descriptor.as_slice(),
    }
}

/// The key of a name and a descriptor among the members of the class of a number.
pub(crate) fn signature_key(class: u32, signature: Signature<'_>) -> MemberKey<'_>
    ensures { key_of result ≡ signature_key class (lent_signature signature.entry) }
{
    MemberKey {
        class: ClassNo(class),
        signature,
    }
}
