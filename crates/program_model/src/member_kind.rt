//! Methods and fields, as far as they are alike: each is declared in a class, with a name, a descriptor and flags.

ghost use Rattle.std.specs.Prelude.{◌≡◌, ◌<◌, ◌≤◌, List, All, length, map, Some, slice_get, if◌then◌else◌};
ghost use Rattle.jvm_model.specs.Access.{mask_of};
ghost use Rattle.jvm_model.specs.Linking.{class_from};
ghost use Rattle.jvm_model.specs.Lookups.{lent_signature};
ghost use Rattle.jvm_model.specs.Programs.{signature_of};
ghost use Rattle.jvm_model.specs.Stubs.{stub_flags};
ghost use Rattle.jvm_model.specs.declared.program.Origin.{Origin};
ghost use Rattle.program_model.specs.Declarations.{Declaration, IsShownAs, member_declaration};

use crate::member_view::MemberView;
use jvm_model::lookup::Signature;
use jvm_model::{AccessFlag, Bytes, ClassFile, ClassNo, Member, Origin, PoolEntry};
use program_index::texts::plain_text;

/// One kind of members.
pub trait MemberKind {
    /// The members of this kind that a class declares, in the order of its file.
    ghost members: { Origin → List Declaration };

    /// How many of them the class declares.
    fn count(origin: &Origin) -> usize
        ensures { result ≡ length (members origin.now) };

    /// The one at a place of the class, which has this number.
    fn view(origin: &Origin, place: usize, class: ClassNo) -> MemberView<'_>
        requires { place < length (members origin.now) }
        ensures { (d : Declaration) → slice_get (members origin.now) place ≡ Some d → IsShownAs class.0 d result };

    /// Each is declared in the class that has it.
    ghost of_class: { (o : Origin) → All (λ (d : Declaration). d.class ≡ (class_from o).name) (members o) };
}

/// Methods (JVMS 4.6).
pub struct Methods;

impl MemberKind for Methods {
    ghost use Rattle.program_model.specs.Declarations.{method_declarations};
    ghost use Rattle.program_model.specs.DeclaredClasses.{methods_of_class};

    ghost members = { method_declarations };

    ghost of_class = { methods_of_class };

    fn count(origin: &Origin) -> usize {
        match origin {
            Origin::Folder { file, .. } => file.class.methods.len(),
            Origin::Stub(stub) => stub.methods.len(),
        }
    }

    fn view(origin: &Origin, place: usize, class: ClassNo) -> MemberView<'_> {
        match origin {
            Origin::Folder { file, .. } => {
                view_in_file(&file.class, file.class.methods.as_slice(), place, class)
            }
            Origin::Stub(stub) => {
                let method = &stub.methods.as_slice()[place];
                let flags = public_flags(method.is_static, method.is_abstract);
                view_of(class, flags, &method.name, &method.descriptor)
            }
        }
    }
}

/// Fields (JVMS 4.5).
pub struct Fields;

impl MemberKind for Fields {
    ghost use Rattle.program_model.specs.Declarations.{field_declarations};
    ghost use Rattle.program_model.specs.DeclaredClasses.{fields_of_class};

    ghost members = { field_declarations };

    ghost of_class = { fields_of_class };

    fn count(origin: &Origin) -> usize {
        match origin {
            Origin::Folder { file, .. } => file.class.fields.len(),
            Origin::Stub(stub) => stub.fields.len(),
        }
    }

    fn view(origin: &Origin, place: usize, class: ClassNo) -> MemberView<'_> {
        match origin {
            Origin::Folder { file, .. } => {
                view_in_file(&file.class, file.class.fields.as_slice(), place, class)
            }
            Origin::Stub(stub) => {
                let field = &stub.fields.as_slice()[place];
                let flags = public_flags(field.is_static, false);
                view_of(class, flags, &field.name, &field.descriptor)
            }
        }
    }
}

/// The one at a place of the methods, or of the fields, of a class file.
fn view_in_file<'a>(
    file: &'a ClassFile,
    members: &[Member],
    place: usize,
    class: ClassNo,
) -> MemberView<'a>
    requires { place < length members.now }
    ensures { (d : Declaration) → slice_get (map (member_declaration file.now) members.now) place ≡ Some d → IsShownAs class.0 d result }
{
    let member = &members[place];
    MemberView {
        class,
        flags: member.flags,
        signature: signature_in(file.pool.as_slice(), member),
    }
}

/// The name and the descriptor of a method or a field of a class file.
pub(crate) fn signature_in<'a>(pool: &'a [PoolEntry], member: &Member) -> Signature<'a>
    ensures { lent_signature result ≡ signature_of pool.now member.now }
{
    Signature {
        name: plain_text(pool, member.name),
        descriptor: plain_text(pool, member.descriptor),
    }
}

/// What a stub describes.
fn view_of<'a>(class: ClassNo, flags: u16, name: &'a Bytes, descriptor: &'a Bytes) -> MemberView<'a>
    ensures class { result.class ≡ class }
    ensures flags { result.flags ≡ flags }
    ensures signature { lent_signature result.signature ≡ record { name = name.now; descriptor = descriptor.now } }
{
    MemberView {
        class,
        flags,
        signature: Signature {
            name: name.as_slice(),
            descriptor: descriptor.as_slice(),
        },
    }
}

/// The flags of a public method or field (JVMS 4.5, 4.6).
fn public_flags(is_static: bool, is_abstract: bool) -> u16
    ensures { result ≡ stub_flags is_static is_abstract }
{
    AccessFlag::Public.mask()
        + mask_if(AccessFlag::Static, is_static)
        + mask_if(AccessFlag::Abstract, is_abstract)
}

/// The flag's bit, if it is to be set.
fn mask_if(flag: AccessFlag, is_set: bool) -> u16
    ensures mask { result ≡ (if is_set then mask_of flag else 0) }
    ensures small { result ≤ 0x0400 }
{
    if is_set { flag.mask() } else { 0 }
}
