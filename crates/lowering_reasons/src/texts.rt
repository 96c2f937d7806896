//! Tests of names: that a name is a text, begins with one, or stands with a descriptor.

ghost use Rattle.std.specs.Prelude.{◌≡◌, ◌↔◌, IsTrue};
ghost use Rattle.jvm_model.specs.Lookups.{lent_signature};
ghost use Rattle.jvm_model.specs.Soundness.{is_array};
ghost use Rattle.lowering_reasons.specs.Reasons.{IsUnder};

use jvm_model::Signature;

/// Whether a name is the text.
pub(crate) fn is_text(name: &[u8], text: &[u8]) -> bool
    ensures { IsTrue result ↔ (name.now ≡ text.now) }
{
    name == text
}

/// Whether a name begins with the text.
pub(crate) fn is_under(name: &[u8], prefix: &[u8]) -> bool
    ensures { IsTrue result ↔ IsUnder prefix.now name.now }
{
    name.starts_with(prefix)
}

/// Whether a signature is this name and this descriptor.
pub(crate) fn is_signature(signature: Signature<'_>, name: &[u8], descriptor: &[u8]) -> bool
    ensures { IsTrue result ↔ (lent_signature signature.entry ≡ record { name = name.now; descriptor = descriptor.now }) }
{
    is_text(signature.name, name) && is_text(signature.descriptor, descriptor)
}

/// Whether a name is that of an array (JVMS 4.3.2).
pub(crate) fn is_array(name: &[u8]) -> bool
    ensures { result ≡ is_array name.now }
{
    match name.first() {
        Some(byte) => *byte == b'[',
        None => false,
    }
}
