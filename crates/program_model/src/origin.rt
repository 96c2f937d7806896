//! What linking reads of a class, whether a class file or a stub says it.

ghost use Rattle.std.specs.Prelude.{◌≡◌, ◌<◌, length, option_map, slice_get, slice_index_or, Some, []};
ghost use Rattle.jvm_model.specs.Linking.{class_from, fields_from};
ghost use Rattle.jvm_model.specs.Programs.{Field};

use jvm_model::lookup::class_name_at;
use jvm_model::{AccessFlag, Name, Origin, StubField};
use program_index::texts::class_text;

/// The name of the class (JVMS 4.1).
pub fn name(origin: &Origin) -> &[u8]
    ensures { result.now ≡ (class_from origin.now).name }
{
    match origin {
        Origin::Folder { file, .. } => {
            class_text(file.class.pool.as_slice(), file.class.this_class)
        }
        Origin::Stub(stub) => stub.name.as_slice(),
    }
}

/// The name of the file that has the class.
pub fn file_name(origin: &Origin) -> &Name
    ensures { result.now ≡ (class_from origin.now).file }
{
    match origin {
        Origin::Folder { file, .. } => &file.file,
        Origin::Stub(stub) => &stub.file,
    }
}

/// Whether it is an interface (JVMS 4.1).
pub fn is_interface(origin: &Origin) -> bool
    ensures { result ≡ (class_from origin.now).is_interface }
{
    match origin {
        Origin::Folder { file, .. } => AccessFlag::Interface.is_set_in(file.class.flags),
        Origin::Stub(stub) => stub.is_interface,
    }
}

/// Whether it is a class of the folder.
pub fn is_folder(origin: &Origin) -> bool
    ensures { result ≡ (class_from origin.now).is_folder }
{
    match origin {
        Origin::Folder { .. } => true,
        Origin::Stub(_) => false,
    }
}

/// The name of the superclass, if there is one.
pub fn super_name(origin: &Origin) -> Option<&[u8]>
    ensures { option_map (λ name. name.now) result ≡ (class_from origin.now).super_class }
{
    match origin {
        Origin::Folder { file, .. } => {
            class_name_at(file.class.pool.as_slice(), file.class.super_class)
        }
        Origin::Stub(stub) if stub.super_class.is_empty() => None,
        Origin::Stub(stub) => Some(stub.super_class.as_slice()),
    }
}

/// How many superinterfaces it names.
pub fn interface_count(origin: &Origin) -> usize
    ensures { result ≡ length (class_from origin.now).interfaces }
{
    match origin {
        Origin::Folder { file, .. } => file.class.interfaces.len(),
        Origin::Stub(stub) => stub.interfaces.len(),
    }
}

/// The name of the superinterface at a place.
pub fn interface_name(origin: &Origin, place: usize) -> &[u8]
    requires { place < length (class_from origin.now).interfaces }
    ensures { result.now ≡ slice_index_or (class_from origin.now).interfaces place [] }
{
    match origin {
        Origin::Folder { file, .. } => {
            let index = file.class.interfaces.as_slice()[place];
            class_text(file.class.pool.as_slice(), index)
        }
        Origin::Stub(stub) => stub.interfaces.as_slice()[place].as_slice(),
    }
}

/// The class of the object that the field at a place of the class holds from the start, if its stub names one.
pub fn held_in(origin: &Origin, place: usize) -> Option<&[u8]>
    requires { place < length (fields_from origin.now) }
    ensures { (f : Field) → slice_get (fields_from origin.now) place ≡ Some f → option_map (λ class. class.now) result ≡ f.holds }
{
    match origin {
        Origin::Folder { .. } => None,
        Origin::Stub(stub) => held_by(&stub.fields.as_slice()[place]),
    }
}

/// The class that the description of a field names as that of its first object.
fn held_by(field: &StubField) -> Option<&[u8]>
    ensures { option_map (λ class. class.now) result ≡ field.now.holds }
{
    match &field.holds {
        Some(class) => Some(class.as_slice()),
        None => None,
    }
}
