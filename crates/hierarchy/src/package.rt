//! Packages of classes.

ghost use Rattle.std.specs.Prelude.{◌≡◌, ◌↔◌, IsTrue};
ghost use Rattle.jvm_model.specs.Selection.{package_of};

/// Whether the classes of two names are in the same package (JVMS 5.3).
pub(crate) fn is_same_package(name: &[u8], other: &[u8]) -> bool
    ensures { IsTrue result ↔ (package_of name.now ≡ package_of other.now) }
{
    package(name) == package(other)
}

/// The package of the class of a name: the bytes up to the last slash.
fn package(name: &[u8]) -> &[u8]
    ensures { result.now ≡ package_of name.now }
{
    let mut end = name.len();
    while end > 0 && name[end - 1] != b'/' {
        end -= 1;
    }
    &name[..end]
}
