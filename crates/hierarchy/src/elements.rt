//! Names of arrays, and of their elements (JVMS 4.3.2, 4.10.1.2).

ghost use Rattle.std.specs.Prelude.{codes, ◌≡◌, ◌≢◌, ◌↔◌, ℕ, List, ◌++◌, IsTrue, IfSome, IfNone};
ghost use Rattle.jvm_model.specs.Soundness.{is_array};
ghost use Rattle.jvm_model.specs.Subtypes.{array_of, reference_descriptor, IsArraySuper};

/// Whether a name is that of an array (JVMS 4.3.2).
pub(crate) fn is_array(name: &[u8]) -> bool
    ensures { result ≡ is_array name.now }
{
    match name.first() {
        Some(byte) => *byte == b'[',
        None => false,
    }
}

/// Whether a name is that of a supertype of each array (JVMS 4.10.1.2).
pub(crate) fn is_array_super(name: &[u8]) -> bool
    ensures { IsTrue result ↔ IsArraySuper name.now }
{
    is_text(name, b"java/lang/Object")
        || is_text(name, b"java/lang/Cloneable")
        || is_text(name, b"java/io/Serializable")
}

/// Whether a name is the text.
fn is_text(name: &[u8], text: &[u8]) -> bool
    ensures { IsTrue result ↔ (name.now ≡ text.now) }
{
    name == text
}

/// The name of the elements of an array, if they are of a reference type.
pub(crate) fn element(name: &[u8]) -> Option<&[u8]>
    ensures of { IfSome result (λ element. name.now ≡ array_of element.now) }
    ensures none { IfNone result ((element : List ℕ) → name.now ≢ array_of element) }
{
    described_type(name.strip_prefix(b"[")?)
}

/// The name of the reference type of which a text is the descriptor (JVMS 4.3.2).
fn described_type(text: &[u8]) -> Option<&[u8]>
    ensures of { IfSome result (λ name. text.now ≡ reference_descriptor name.now) }
    ensures none { IfNone result ((name : List ℕ) → text.now ≢ reference_descriptor name) }
{
    if is_array(text) {
        return Some(text);
    }
    let class = described_class(text)?;
    if is_array(class) { None } else { Some(class) }
}

/// What stands between an L and a semicolon (JVMS 4.3.2).
fn described_class(text: &[u8]) -> Option<&[u8]>
    ensures of { IfSome result (λ class. text.now ≡ codes "L" ++ class.now ++ codes ";") }
    ensures none { IfNone result ((class : List ℕ) → text.now ≢ codes "L" ++ class ++ codes ";") }
{
    text.strip_prefix(b"L")?.strip_suffix(b";")
}
