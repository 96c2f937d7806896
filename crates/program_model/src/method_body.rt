//! What stands for a method when it is called.

ghost use Rattle.std.specs.Prelude.{◌≡◌, ◌<◌, find, length, option_map, Some, slice_get};
ghost use Rattle.jvm_model.specs.Linking.{body_from, describes, methods_from};
ghost use Rattle.jvm_model.specs.Programs.{Method};
ghost use Rattle.jvm_model.specs.declared.class_file.Member.{Member};
ghost use Rattle.jvm_model.specs.declared.stub.StubMethod.{StubMethod};
ghost use Rattle.program_model.specs.Bodies.{IsBodyView};

use crate::member_kind::signature_in;
use jvm_model::{AccessFlag, ClassFile, Member, Origin, PoolEntry, StubMethod};

/// What stands for a method when it is called.
#[derive(Clone, Copy, Debug)]
pub enum MethodBody<'a> {
    /// The method of a class file that has this number among the methods of the file (JVMS 4.6).
    InFile { file: &'a ClassFile, number: usize },
    /// The description of a stub.
    Described(&'a StubMethod),
}

/// What stands for the method at a place of the class.
pub(crate) fn body_in(origin: &Origin, place: usize) -> MethodBody<'_>
    requires { place < length (methods_from origin.now) }
    ensures { (m : Method) → slice_get (methods_from origin.now) place ≡ Some m → IsBodyView m.body result }
{
    match origin {
        Origin::Folder { file, natives } => body_in_file(&file.class, natives.as_slice(), place),
        Origin::Stub(stub) => MethodBody::Described(&stub.methods.as_slice()[place]),
    }
}

/// What stands for the method at a place of a class file: the first description of it, or its member.
fn body_in_file<'a>(file: &'a ClassFile, natives: &'a [StubMethod], place: usize) -> MethodBody<'a>
    requires { place < length file.now.methods }
    ensures { (m : Member) → slice_get file.now.methods place ≡ Some m → IsBodyView (body_from natives.now file.now (place, m)) result }
{
    let member = &file.methods.as_slice()[place];
    match description_of(file.pool.as_slice(), natives, member) {
        Some(description) => MethodBody::Described(description),
        None => MethodBody::InFile {
            file,
            number: place,
        },
    }
}

/// The first of the descriptions that describes the member.
fn description_of<'a>(
    pool: &[PoolEntry],
    natives: &'a [StubMethod],
    member: &Member,
) -> Option<&'a StubMethod>
    ensures { option_map (λ d. d.now) result ≡ find (λ d. describes pool.now d member.now) natives.now }
{
    for description in natives {
        if describes(pool, description, member) {
            return Some(description);
        }
    }
    None
}

/// Whether a stub describes the member: a native method of its name and descriptor, which is static if the stub's is. An
/// abstract stub describes none.
fn describes(pool: &[PoolEntry], description: &StubMethod, member: &Member) -> bool
    ensures { result ≡ describes pool.now description.now member.now }
{
    if description.is_abstract {
        return false;
    }
    if !AccessFlag::Native.is_set_in(member.flags) {
        return false;
    }
    let signature = signature_in(pool, member);
    if signature.name != description.name.as_slice() {
        return false;
    }
    if signature.descriptor != description.descriptor.as_slice() {
        return false;
    }
    AccessFlag::Static.is_set_in(member.flags) == description.is_static
}
