//! Tests of texts against the grammars of names and descriptors (JVMS 4.2, 4.3), and of the names that a
//! property gives to states. None of them takes memory, and each takes time linear in its text.

ghost use Rattle.std.specs.Prelude.{codes, ◌≡◌, ◌||◌, ◌↔◌, ◌==◌, ℕ, not, position, IsTrue, List, MatchOption};
ghost use Rattle.std.specs.Str.{bytes_eq};
ghost use Rattle.jvm_model.specs.Automata.{is_state_byte, is_state_name};
ghost use Rattle.jvm_model.specs.Descriptors.{is_base_letter, units_of, IsFieldDescriptor, IsFieldType, IsMethodDescriptor, IsObjectType};
ghost use Rattle.jvm_model.specs.Fronts.{EndsParameters, IsFrontLength};
ghost use Rattle.jvm_model.specs.Soundness.{is_array, IsIn};
ghost use Rattle.jvm_model.specs.Names.{is_method_name, is_name_byte, is_plain_byte, is_unqualified_name, IsClassName};

/// A grammar of JVMS 4.2 and 4.3.
#[derive(Clone, Copy, Debug, PartialEq, Eq)]
pub enum Grammar {
    /// The name of a class or an interface, or the descriptor of an array (4.2.1, 4.3.2, 4.4.1).
    ClassOrArray,
    /// The name of a field (4.2.2).
    FieldName,
    /// The name of a method (4.2.2).
    MethodName,
    /// The descriptor of a field (4.3.2).
    FieldDescriptor,
    /// The descriptor of a method (4.3.3).
    MethodDescriptor,
}

impl Grammar {
    /// Whether a text is in the grammar.
    pub fn has(self, text: &[u8]) -> bool
        ensures { IsTrue result ↔ IsIn self text.now }
    {
        match self {
            Grammar::ClassOrArray => is_class_name(text) || is_array_descriptor(text),
            Grammar::FieldName => is_unqualified_name(text),
            Grammar::MethodName => is_method_name(text),
            Grammar::FieldDescriptor => is_field_descriptor(text),
            Grammar::MethodDescriptor => is_method_descriptor(text),
        }
    }
}

/// The most dimensions of an array type (JVMS 4.3.2).
const MOST_DIMENSIONS: usize = 255;

/// The most units that the parameters of a method take (JVMS 4.3.3).
const MOST_UNITS: usize = 255;

/// Whether a byte may stand in an unqualified name (JVMS 4.2.2).
fn is_name_byte(byte: u8) -> bool
    ensures { result ≡ is_name_byte byte }
{
    !matches!(byte, b'.' | b';' | b'[' | b'/')
}

/// Whether a byte may stand in the name of a method other than `<init>` and `<clinit>` (JVMS 4.2.2).
fn is_plain_byte(byte: u8) -> bool
    ensures { result ≡ is_plain_byte byte }
{
    !matches!(byte, b'<' | b'>')
}

/// Whether a byte may stand in the name of a state.
fn is_state_byte(byte: u8) -> bool
    ensures { result ≡ is_state_byte byte }
{
    matches!(byte, b'A'..=b'Z' | b'a'..=b'z' | b'0'..=b'9' | b'_' | b'-')
}

/// Whether a text is an unqualified name (JVMS 4.2.2).
pub fn is_unqualified_name(name: &[u8]) -> bool
    ensures { result ≡ is_unqualified_name name.now }
{
    !name.is_empty() && name.iter().all(|byte| is_name_byte(*byte))
}

/// Whether a text is one of the two special names of methods (JVMS 2.9).
fn is_special_name(name: &[u8]) -> bool
    ensures { result ≡ (bytes_eq name.now (codes "<init>") || bytes_eq name.now (codes "<clinit>")) }
{
    name == b"<init>".as_slice() || name == b"<clinit>".as_slice()
}

/// Whether a text is the name of a method (JVMS 4.2.2).
pub fn is_method_name(name: &[u8]) -> bool
    ensures { result ≡ is_method_name name.now }
{
    is_special_name(name)
        || (is_unqualified_name(name) && name.iter().all(|byte| is_plain_byte(*byte)))
}

/// Whether a text is the name of a state: 1 to 64 ASCII letters, digits, `_` and `-`.
pub fn is_state_name(name: &[u8]) -> bool
    ensures { result ≡ is_state_name name.now }
{
    !name.is_empty() && name.len() <= 64 && name.iter().all(|byte| is_state_byte(*byte))
}

/// Whether a text is the name of a class or an interface, with `/` between its parts (JVMS 4.2.1).
pub fn is_class_name(name: &[u8]) -> bool
    ensures { IsTrue result ↔ IsClassName name.now }
{
    name.split(|byte| *byte == b'/').all(is_unqualified_name)
}

/// Whether a byte is the letter of a primitive type (JVMS 4.3.2).
fn is_base_letter(byte: u8) -> bool
    ensures { result ≡ is_base_letter byte }
{
    matches!(byte, b'B' | b'C' | b'D' | b'F' | b'I' | b'J' | b'S' | b'Z')
}

/// The length of the object type at the front of a text: `L`, the name of a class and `;` (JVMS 4.3.2).
fn object_type_length(text: &[u8]) -> Option<usize>
    ensures { IsFrontLength IsObjectType text.now result }
{
    let end = text.iter().position(|byte| *byte == b';')?;
    match &text[..end] {
        [b'L', name @ ..] if is_class_name(name) => Some(end + 1),
        _ => None,
    }
}

/// The length of the primitive type or the object type at the front of a text (JVMS 4.3.2).
fn component_length(text: &[u8]) -> Option<usize>
    ensures { IsFrontLength (IsFieldType 0) text.now result }
{
    match text {
        [letter, ..] if is_base_letter(*letter) => Some(1),
        _ => object_type_length(text),
    }
}

/// How many `[` stand at the front of a text, or `None` where nothing else follows.
pub fn dimensions_of(text: &[u8]) -> Option<usize>
    ensures { result ≡ position (λ b. not (b == 91)) text.now }
{
    text.iter().position(|byte| *byte != b'[')
}

/// The length of the field descriptor at the front of a text (JVMS 4.3.2). There is at most one, since no field
/// descriptor begins another.
pub(crate) fn field_descriptor_length(text: &[u8]) -> Option<usize>
    ensures { IsFrontLength IsFieldDescriptor text.now result }
{
    let dimensions = dimensions_of(text)?;
    if dimensions > MOST_DIMENSIONS {
        return None;
    }
    let length = component_length(&text[dimensions..])?;
    Some(dimensions + length)
}

/// Whether a text begins as the descriptor of an array does (JVMS 4.3.2).
pub fn is_array(text: &[u8]) -> bool
    ensures { result ≡ is_array text.now }
{
    match text {
        [first, ..] => *first == b'[',
        [] => false,
    }
}

/// Whether a text is the descriptor of an array (JVMS 4.3.2).
fn is_array_descriptor(text: &[u8]) -> bool
    ensures { IsTrue result ↔ (IsTrue (is_array text.now) × IsFieldDescriptor text.now) }
{
    is_array(text) && is_field_descriptor(text)
}

/// Whether a text is a field descriptor (JVMS 4.3.2).
pub fn is_field_descriptor(text: &[u8]) -> bool
    ensures { IsTrue result ↔ IsFieldDescriptor text.now }
{
    field_descriptor_length(text) == Some(text.len())
}

/// The units that a parameter takes, by its field descriptor: two for a long or a double, and else one (JVMS 4.3.3).
fn units_of(parameter: &[u8]) -> usize
    ensures { result ≡ units_of parameter.now }
{
    if parameter == b"J".as_slice() || parameter == b"D".as_slice() {
        2
    } else {
        1
    }
}

/// What follows the parameters of a method and their closing parenthesis, at the front of a text (JVMS 4.3.3).
pub(crate) fn after_parameters(text: &[u8]) -> Option<&[u8]>
    ensures { MatchOption result
        ((outcome : List ℕ) → EndsParameters text.now outcome → ⊥)
        (λ outcome. EndsParameters text.now outcome.now) }
{
    let mut rest = text;
    let mut units = 0;
    while let Some(length) = field_descriptor_length(rest) {
        let (parameter, after) = rest.split_at(length);
        units += units_of(parameter);
        if units > MOST_UNITS {
            return None;
        }
        rest = after;
    }
    rest.strip_prefix(b")")
}

/// Whether a text is a method descriptor (JVMS 4.3.3).
pub fn is_method_descriptor(text: &[u8]) -> bool
    ensures { IsTrue result ↔ IsMethodDescriptor text.now }
{
    let Some(parameters) = text.strip_prefix(b"(") else {
        return false;
    };
    let Some(outcome) = after_parameters(parameters) else {
        return false;
    };
    outcome == b"V".as_slice() || is_field_descriptor(outcome)
}
