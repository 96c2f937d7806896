//! The names of all classes, and which of them are interfaces.

ghost use Rattle.std.specs.Prelude.{◌≡◌, [], ◌∷◌, ◌++◌, map, IfSome, IfNone, OnOk, IfOk, IfErr};
ghost use Rattle.program_linking.specs.Claims.{IsKnownAs, Knows, unsorted, AreNewNames, all_names, file_name, file_kind, stub_name, stub_kind, own_name, own_kind};
ghost use Rattle.program_linking.specs.TooLarge.{TellsTooMany};
ghost use Rattle.program_index.specs.FirstPlaces.{StandsNowhere};
ghost use Rattle.program_index.specs.Limits.{AreTooMany};
ghost use Rattle.jvm_model.specs.Linking.{Meets, is_there, own_classes};

use jvm_model::{AccessFlag, NamedClass, StubClass};
use program_index::index_failure::IndexFailure;
use program_index::text_index::TextIndex;
use program_index::texts::class_text;
use std::alloc::Global;
use std::marker::Model;

/// The classes of a program by name, with the kind of each. Contracts see a program whose classes have a name and a kind alone.
#[derive(Drop)]
pub struct Known {
    names: TextIndex,
    interfaces: Vec<bool>,
}

impl Model for Known {
    ghost use Rattle.std.specs.Prelude.{◌≡◌, length};
    ghost use Rattle.jvm_model.specs.Programs.{Program};
    ghost use Rattle.program_linking.specs.Claims.{known_program};

    ghost Value = { Program };

    ghost view = { λ k. known_program k.names k.interfaces.items };

    ghost invariant = { λ k. length k.names ≡ length k.interfaces.items };
}

impl Known {
    /// Whether the class of a name is an interface (JVMS 4.1), if there is one of the name.
    pub fn kind_of(&self, name: &[u8]) -> Option<bool>
        ensures found { IfSome result (IsKnownAs self.now name.now) }
        ensures none { IfNone result (Meets self.now (is_there name.now) → ⊥) }
    {
        let place = self.names.find(name)?;
        Some(self.interfaces[place as usize])
    }
}

/// The classes of class files, and of stubs that are classes of their own. The failure is `TooMany` only where there are 2^32 - 1
/// classes or more.
pub fn known_classes(
    alloc: Global,
    files: &[NamedClass],
    stubs: &[StubClass],
) -> Result<Known, IndexFailure>
    requires { AreNewNames [] (all_names files.now stubs.now) }
    ensures known { IfOk result (λ known. Knows known (unsorted files.now stubs.now)) }
    ensures too_many { IfErr result (TellsTooMany (AreTooMany (all_names files.now stubs.now))) }
{
    let mut names = TextIndex::new(alloc);
    let mut interfaces = Vec::new(alloc);
    add_files(&mut names, &mut interfaces, files)?;
    add_stubs(&mut names, &mut interfaces, stubs)?;
    Ok(Known { names, interfaces })
}

/// Adds class files.
fn add_files(
    names: &mut TextIndex,
    interfaces: &mut Vec<bool>,
    files: &[NamedClass],
) -> Result<(), IndexFailure>
    requires { AreNewNames names.old (map file_name files.now) }
    ensures names { OnOk result (names.new ≡ names.old ++ map file_name files.now) }
    ensures kinds { OnOk result (interfaces.new.items ≡ interfaces.old.items ++ map file_kind files.now) }
    ensures too_many { IfErr result (TellsTooMany (AreTooMany (names.old ++ map file_name files.now))) }
{
    for f in files {
        add_file(names, interfaces, f)?;
    }
    Ok(())
}

/// Adds a class file.
fn add_file(
    names: &mut TextIndex,
    interfaces: &mut Vec<bool>,
    f: &NamedClass,
) -> Result<(), IndexFailure>
    requires { AreNewNames names.old (file_name f.now ∷ []) }
    ensures names { OnOk result (names.new ≡ names.old ++ file_name f.now ∷ []) }
    ensures kinds { OnOk result (interfaces.new.items ≡ interfaces.old.items ++ file_kind f.now ∷ []) }
    ensures too_many { IfErr result (TellsTooMany (AreTooMany names.old)) }
{
    let name = class_text(f.class.pool.as_slice(), f.class.this_class);
    let is_interface = AccessFlag::Interface.is_set_in(f.class.flags);
    add_class(names, interfaces, name, is_interface)
}

/// Adds stubs that are classes of their own.
fn add_stubs(
    names: &mut TextIndex,
    interfaces: &mut Vec<bool>,
    stubs: &[StubClass],
) -> Result<(), IndexFailure>
    requires { AreNewNames names.old (map stub_name (own_classes stubs.now)) }
    ensures names { OnOk result (names.new ≡ names.old ++ map stub_name (own_classes stubs.now)) }
    ensures kinds { OnOk result (interfaces.new.items ≡ interfaces.old.items ++ map stub_kind (own_classes stubs.now)) }
    ensures too_many { IfErr result (TellsTooMany (AreTooMany (names.old ++ map stub_name (own_classes stubs.now)))) }
{
    for c in stubs {
        add_stub(names, interfaces, c)?;
    }
    Ok(())
}

/// Adds a stub, if it is a class of its own.
fn add_stub(
    names: &mut TextIndex,
    interfaces: &mut Vec<bool>,
    c: &StubClass,
) -> Result<(), IndexFailure>
    requires { AreNewNames names.old (own_name c.now) }
    ensures names { OnOk result (names.new ≡ names.old ++ own_name c.now) }
    ensures kinds { OnOk result (interfaces.new.items ≡ interfaces.old.items ++ own_kind c.now) }
    ensures too_many { IfErr result (TellsTooMany (AreTooMany names.old)) }
{
    if c.is_patch {
        return Ok(());
    }
    add_class(names, interfaces, c.name.as_slice(), c.is_interface)
}

/// Adds a class of a new name.
fn add_class(
    names: &mut TextIndex,
    interfaces: &mut Vec<bool>,
    name: &[u8],
    is_interface: bool,
) -> Result<(), IndexFailure>
    requires { StandsNowhere names.old name.now }
    ensures names { OnOk result (names.new ≡ names.old ++ name.now ∷ []) }
    ensures kinds { OnOk result (interfaces.new.items ≡ interfaces.old.items ++ is_interface ∷ []) }
    ensures too_many { IfErr result (TellsTooMany (AreTooMany names.old)) }
{
    names.intern(name)?;
    interfaces.push(is_interface)?;
    Ok(())
}
