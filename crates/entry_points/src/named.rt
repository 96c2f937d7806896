//! Whether class files have a method of a name.

ghost use Rattle.std.specs.Prelude.{◌≡◌, ◌↔◌, IsTrue};
ghost use Rattle.jvm_model.specs.Programs.{name_of};
ghost use Rattle.entry_points.specs.Entries.{HasMember, HasName, NamesMember, NamesMethod};

use jvm_model::{ClassFile, Member, NamedClass, PoolEntry};
use program_index::texts::{class_text, plain_text};

/// Whether one of the class files is the class of the name and has a method of the other name, whatever its descriptor.
pub fn has_method_named(classes: &[NamedClass], class: &[u8], method: &[u8]) -> bool
    ensures { IsTrue result ↔ NamesMethod classes.now class.now method.now }
{
    for file in classes {
        if names_method(file, class, method) {
            return true;
        }
    }
    false
}

/// Whether a class file is the class of the name and has a method of the other name.
fn names_method(file: &NamedClass, class: &[u8], method: &[u8]) -> bool
    ensures { IsTrue result ↔ NamesMember class.now method.now file.now }
{
    is_class(&file.class, class)
        && has_member(
            file.class.pool.as_slice(),
            file.class.methods.as_slice(),
            method,
        )
}

/// Whether a class file is the class of the name.
fn is_class(file: &ClassFile, class: &[u8]) -> bool
    ensures { IsTrue result ↔ (name_of file.now ≡ class.now) }
{
    class_text(file.pool.as_slice(), file.this_class) == class
}

/// Whether one of the members has the name.
fn has_member(pool: &[PoolEntry], members: &[Member], name: &[u8]) -> bool
    ensures { IsTrue result ↔ HasMember pool.now members.now name.now }
{
    for member in members {
        if has_name(pool, member, name) {
            return true;
        }
    }
    false
}

/// Whether a member has the name.
fn has_name(pool: &[PoolEntry], member: &Member, name: &[u8]) -> bool
    ensures { IsTrue result ↔ HasName pool.now name.now member.now }
{
    plain_text(pool, member.name) == name
}
