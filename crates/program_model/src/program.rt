//! The linked program, and what the searches read of it.

ghost use Rattle.std.specs.Prelude.{◌≡◌, ◌↔◌, ℕ, ◌<◌, length, option_map, Some, slice_get, All, Contains, IsTrue, IfSome, IfNone};
ghost use Rattle.jvm_model.specs.LinkedPrograms.{IsProgram};
ghost use Rattle.jvm_model.specs.Lookups.{lent_signature};
ghost use Rattle.jvm_model.specs.Programs.{Class, Method, Field};
ghost use Rattle.jvm_model.specs.Resolution.{Declares, DeclaresField, HasSignature};
ghost use Rattle.jvm_model.specs.Subtypes.{IsSubtype};
ghost use Rattle.program_model.specs.Bodies.{IsBodyView};
ghost use Rattle.program_model.specs.FieldSearches.{IsSearchOrder};
ghost use Rattle.program_model.specs.Files.{HaveOneFile};
ghost use Rattle.program_model.specs.Numbers.{name_at, IsClassNumber, IsFieldNumber, IsMethodNumber, IsNumber};
ghost use Rattle.program_model.specs.Ranks.{IsRanked};
ghost use Rattle.program_model.specs.Roots.{HasRoot};
ghost use Rattle.program_model.specs.Assembling.{Assembles, IsCycleFailure};
ghost use Rattle.program_model.specs.Origins.{IsSoundOrigin};
ghost use Rattle.program_model.specs.Whole.{IsLinkable, IsThroughInterface, IsMethodView, IsFieldView};

use crate::link_failure::{LinkFailure, LinkFault, refused};
use crate::member_kind::{Fields, Methods};
use crate::member_table::MemberTable;
use crate::member_view::MemberView;
use crate::method_body::{MethodBody, body_in};
use crate::numbering::{names_of, parents_of_all};
use crate::origin::{file_name, held_in, is_folder, is_interface};
use crate::sorted::find_in_order;
use failure::Failure;
use jvm_model::layout::this_class_offset;
use jvm_model::lookup::Signature;
use jvm_model::{Bytes, ClassNo, FieldNo, MethodNo, Name, Origin, Reason};
use program_index::above::{above_lists, is_at_or_above, sorted_lists};
use program_index::order::upward_order;
use program_index::parents::Parents;
use std::alloc::Global;
use std::marker::Model;

/// A program in which each name has its class.
#[derive(Drop)]
pub struct Program {
    origins: Vec<Origin>,
    names: Vec<Bytes>,
    parents: Vec<Parents>,
    above: Vec<Vec<u32>>,
    sorted: Vec<Vec<u32>>,
    methods: MemberTable,
    fields: MemberTable,
}

impl Model for Program {
    ghost use Rattle.jvm_model.specs.Programs.{Program as LinkedProgram};
    ghost use Rattle.jvm_model.specs.Linking.{program_from};

    ghost Value = { LinkedProgram };

    ghost view = { λ p. program_from p.origins.items };

    ghost use Rattle.program_model.specs.Indexes.{IsWhole};

    ghost invariant = { IsWhole };
}

impl Program {
    /// The program of classes in byte order of their names; or `Cycle` at the first of them that is above itself (JVMS 5.3.5).
    ///
    /// The failure is `TooMany` where there are 2^32 - 1 classes, methods, fields or texts of them, or more.
    pub fn assemble(alloc: Global, order: Vec<Origin>) -> Result<Program, LinkFailure>
        requires sound { All IsSoundOrigin order.items }
        requires linkable { IsLinkable order.items }
        ensures { Assembles order.items result }
    {
        let names = names_of(alloc, &order)?;
        if names.len() >= u32::MAX as usize {
            return Err(Failure::Cause(LinkFault::TooMany));
        }
        let parents = parents_of_all(alloc, &names, &order)?;
        let upward = match upward_order(alloc, &parents)? {
            Ok(upward) => upward,
            Err(class) => return Err(cycle_at(alloc, &order[class as usize])),
        };
        let above = above_lists(alloc, &parents, &upward)?;
        let sorted = sorted_lists(alloc, &above)?;
        let methods = MemberTable::of::<Methods>(alloc, &order).map_err(Failure::widen)?;
        let fields = MemberTable::of::<Fields>(alloc, &order).map_err(Failure::widen)?;
        Ok(Program {
            origins: order,
            names,
            parents,
            above,
            sorted,
            methods,
            fields,
        })
    }

    /// What holds of each linked program: no class is above itself, all supertypes are there, and of the right kind; members
    /// differ, and each method has a body that was checked; the methods of one class are members of one class file; and where
    /// there is a class, there is java/lang/Object (JVMS 4.1). It does nothing.
    pub fn well_formed(&self)
        ensures program { IsProgram self.now }
        ensures ranked { IsRanked self.now }
        ensures root { HasRoot self.now }
        ensures files { HaveOneFile self.now }
    {
        let _classes = self.origins.len();
    }

    /// How many classes there are.
    pub fn class_count(&self) -> usize
        ensures { result ≡ length self.now.classes }
    {
        self.origins.len()
    }

    /// The name of the class (JVMS 4.2.1).
    pub fn class_name(&self, class: ClassNo) -> &[u8]
        requires { IsClassNumber self.now class.0 }
        ensures { result.now ≡ name_at self.now class.0 }
    {
        self.names[class.0 as usize].as_slice()
    }

    /// The name of the file that has the class: a class file of the folder, or a stub file.
    pub fn file_name(&self, class: ClassNo) -> &Name
        requires { IsClassNumber self.now class.0 }
        ensures { (c : Class) → slice_get self.now.classes class.0 ≡ Some c → result.now ≡ c.file }
    {
        file_name(&self.origins[class.0 as usize])
    }

    /// Whether the class is an interface (JVMS 4.1).
    pub fn is_interface(&self, class: ClassNo) -> bool
        requires { IsClassNumber self.now class.0 }
        ensures { (c : Class) → slice_get self.now.classes class.0 ≡ Some c → result ≡ c.is_interface }
    {
        is_interface(&self.origins[class.0 as usize])
    }

    /// Whether the class is one of the folder.
    pub fn is_folder(&self, class: ClassNo) -> bool
        requires { IsClassNumber self.now class.0 }
        ensures { (c : Class) → slice_get self.now.classes class.0 ≡ Some c → result ≡ c.is_folder }
    {
        is_folder(&self.origins[class.0 as usize])
    }

    /// The number of the superclass, if there is one.
    pub fn super_class(&self, class: ClassNo) -> Option<ClassNo>
        requires { IsClassNumber self.now class.0 }
        ensures { (c : Class) → slice_get self.now.classes class.0 ≡ Some c → IsNumber self.now c.super_class result }
    {
        match self.parents[class.0 as usize].super_class {
            Some(number) => Some(ClassNo(number)),
            None => None,
        }
    }

    /// The numbers of all supertypes of the class through one of its own superinterfaces, in the order in which resolution
    /// searches them, each once (JVMS 5.4.3.2).
    pub fn through_interfaces(&self, class: ClassNo) -> &[u32]
        requires { IsClassNumber self.now class.0 }
        ensures below { All (IsClassNumber self.now) result.now }
        ensures exact { (c : Class) → slice_get self.now.classes class.0 ≡ Some c
            → (n : ℕ) → IsClassNumber self.now n → Contains result.now n ↔ IsThroughInterface self.now c n }
        ensures order { (c : Class) → slice_get self.now.classes class.0 ≡ Some c → IsSearchOrder self.now c result.now }
    {
        &self.above[class.0 as usize]
    }

    /// The number of the class of a name.
    pub fn find(&self, name: &[u8]) -> Option<ClassNo>
        ensures found { IfSome result (λ c. IsClassNumber self.now c.0 × (name_at self.now c.0 ≡ name.now)) }
        ensures none { IfNone result ((n : ℕ) → IsClassNumber self.now n → name_at self.now n ≡ name.now → ⊥) }
    {
        match find_in_order(&self.names, name) {
            Some(number) => Some(ClassNo(number)),
            None => None,
        }
    }

    /// Whether the upper class is the lower one or above it (JVMS 4.10.1.2).
    pub fn is_at_or_above(&self, lower: ClassNo, upper: ClassNo) -> bool
        requires lower { IsClassNumber self.now lower.0 }
        requires upper { IsClassNumber self.now upper.0 }
        ensures { IsTrue result ↔ IsSubtype self.now (name_at self.now upper.0) (name_at self.now lower.0) }
    {
        is_at_or_above(&self.parents, &self.sorted, lower.0, upper.0)
    }

    /// The number of the method of a name and a descriptor that the class declares.
    pub fn declared_method(&self, class: ClassNo, signature: Signature<'_>) -> Option<MethodNo>
        requires { IsClassNumber self.now class.0 }
        ensures found { IfSome result (λ m. Declares self.now (HasSignature (lent_signature signature.entry)) (name_at self.now class.0) m.0) }
        ensures none { IfNone result ((n : ℕ) → Declares self.now (HasSignature (lent_signature signature.entry)) (name_at self.now class.0) n → ⊥) }
    {
        match self
            .methods
            .first::<Methods>(&self.origins, class, signature)
        {
            Some(number) => Some(MethodNo(number)),
            None => None,
        }
    }

    /// The number of the field of a name and a descriptor that the class declares.
    pub fn declared_field(&self, class: ClassNo, signature: Signature<'_>) -> Option<FieldNo>
        requires { IsClassNumber self.now class.0 }
        ensures found { IfSome result (λ f. DeclaresField self.now (lent_signature signature.entry) (name_at self.now class.0) f.0) }
        ensures none { IfNone result ((n : ℕ) → DeclaresField self.now (lent_signature signature.entry) (name_at self.now class.0) n → ⊥) }
    {
        match self.fields.first::<Fields>(&self.origins, class, signature) {
            Some(number) => Some(FieldNo(number)),
            None => None,
        }
    }

    /// A method.
    pub fn method(&self, number: MethodNo) -> MemberView<'_>
        requires { IsMethodNumber self.now number.0 }
        ensures { (m : Method) → slice_get self.now.methods number.0 ≡ Some m → IsMethodView self.now m result }
    {
        self.methods.view::<Methods>(&self.origins, number.0)
    }

    /// What stands for a method when it is called. It takes no memory, and time linear in the descriptions of native methods of
    /// its class.
    pub fn method_body(&self, number: MethodNo) -> MethodBody<'_>
        requires { IsMethodNumber self.now number.0 }
        ensures { (m : Method) → slice_get self.now.methods number.0 ≡ Some m → IsBodyView m.body result }
    {
        let at = self.methods.places[number.0 as usize];
        body_in(&self.origins[at.class.0 as usize], at.place as usize)
    }

    /// A field.
    pub fn field(&self, number: FieldNo) -> MemberView<'_>
        requires { IsFieldNumber self.now number.0 }
        ensures { (f : Field) → slice_get self.now.fields number.0 ≡ Some f → IsFieldView self.now f result }
    {
        self.fields.view::<Fields>(&self.origins, number.0)
    }

    /// The class of the object that a field holds from the start, if its stub names one.
    pub fn held_class(&self, number: FieldNo) -> Option<&[u8]>
        requires { IsFieldNumber self.now number.0 }
        ensures { (f : Field) → slice_get self.now.fields number.0 ≡ Some f → option_map (λ class. class.now) result ≡ f.holds }
    {
        let at = self.fields.places[number.0 as usize];
        held_in(&self.origins[at.class.0 as usize], at.place as usize)
    }
}

/// The refusal of a class that is above itself.
fn cycle_at(alloc: Global, class: &Origin) -> LinkFailure
    requires { IsSoundOrigin class.now }
    ensures { IsCycleFailure class.now result }
{
    match class {
        Origin::Folder { file, .. } => {
            let offset = this_class_offset(&file.class);
            refused(alloc, &file.file, offset, Reason::Cycle)
        }
        Origin::Stub(stub) => refused(alloc, &stub.file, 0, Reason::Cycle),
    }
}
