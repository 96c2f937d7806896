//! The class of a method's result, by its descriptor (JVMS 4.3.3).

ghost use Rattle.std.specs.Prelude.{◌≡◌, false, not, ◌&&◌, ◌==◌, if◌then◌else◌, option_map};
ghost use Rattle.jvm_model.specs.Stubs.{after_parameters, class_in, result_class};

/// The class of the result of a method descriptor, if it is a class (JVMS 4.3.3).
pub fn result_class(descriptor: &[u8]) -> Option<&[u8]>
    ensures { option_map (λ name. name.now) result ≡ result_class descriptor.now }
{
    class_in(after_parameters(descriptor))
}

/// What follows the parameters of a method descriptor.
fn after_parameters(descriptor: &[u8]) -> &[u8]
    ensures { result.now ≡ after_parameters false descriptor.now }
{
    let mut in_class = false;
    for (place, byte) in descriptor.iter().enumerate() {
        if ends_parameters(in_class, *byte) {
            return &descriptor[place + 1..];
        }
        in_class = is_then_in_class(in_class, *byte);
    }
    &[]
}

/// The parenthesis after the parameters, which is none in the name of a class.
fn ends_parameters(in_class: bool, byte: u8) -> bool
    ensures { result ≡ (not in_class && (byte == 41)) }
{
    !in_class && byte == b')'
}

/// Whether what follows a byte is in the name of a class: from an L up to a semicolon.
fn is_then_in_class(in_class: bool, byte: u8) -> bool
    ensures { result ≡ (if in_class then not (byte == 59) else (byte == 76)) }
{
    if in_class { byte != b';' } else { byte == b'L' }
}

/// The class of a field descriptor of a class (JVMS 4.3.2).
fn class_in(descriptor: &[u8]) -> Option<&[u8]>
    ensures { option_map (λ name. name.now) result ≡ class_in descriptor.now }
{
    let (first, rest) = descriptor.split_first()?;
    if *first == b'L' {
        Some(&rest[..rest.len().saturating_sub(1)])
    } else {
        None
    }
}
