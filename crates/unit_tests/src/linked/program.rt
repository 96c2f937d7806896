//! The program of one class, java/lang/Object, which a stub describes, and what it says.

ghost use Rattle.std.specs.Prelude.{codes, ◌≡◌, ◌∷◌, [], None, true, false, All, IfOk};
ghost use Rattle.jvm_model.specs.StubRules.{IsSoundStub};
ghost use Rattle.jvm_model.specs.declared.program.Origin.TheVariants as origins;
ghost use Rattle.jvm_model.specs.declared.stub.StubResult.TheVariants.{Void};
ghost use Rattle.program_model.specs.Numbers.{IsClassNumber};
ghost use Rattle.program_model.specs.Origins.{IsSoundOrigin};
ghost use Rattle.program_model.specs.Whole.{IsLinkable};

use crate::seen::see;
use jvm_model::lookup::Signature;
use jvm_model::{
    Bytes, ClassNo, MethodNo, Name, Origin, Sequence, StubClass, StubField, StubMethod, StubResult,
};
use program_model::method_body::MethodBody;
use program_model::program::Program;
use std::alloc::{AllocError, Global};
use std::process::Abort;
use std::test::Fail;

/// A copy of the bytes.
fn bytes(alloc: Global, text: &[u8]) -> Result<Bytes, AllocError>
    ensures { IfOk result (λ copy. copy ≡ text.now) }
{
    Ok(Sequence::from_vec(Vec::from_slice(alloc, text)?))
}

/// A constructor that returns.
fn constructor(alloc: Global) -> Result<StubMethod, AllocError>
    ensures { IfOk result (λ m. m ≡ record {
      name = codes "<init>";
      descriptor = codes "()V";
      is_static = false;
      is_abstract = false;
      returns = Void ∷ [];
      throws = [];
      keeps = [];
    }) }
{
    Ok(StubMethod {
        name: bytes(alloc, b"<init>")?,
        descriptor: bytes(alloc, b"()V")?,
        is_static: false,
        is_abstract: false,
        returns: Sequence::from_vec(vec![in alloc; StubResult::Void]?),
        throws: Sequence::from_vec(Vec::new(alloc)),
        keeps: Sequence::from_vec(Vec::new(alloc)),
    })
}

/// A static field of type int.
fn field(alloc: Global) -> Result<StubField, AllocError>
    ensures { IfOk result (λ f. f ≡ record { name = codes "held"; descriptor = codes "I"; is_static = true; holds = None }) }
{
    Ok(StubField {
        name: bytes(alloc, b"held")?,
        descriptor: bytes(alloc, b"I")?,
        is_static: true,
        holds: None,
    })
}

/// The class java/lang/Object, with the constructor and the field.
fn object_class(alloc: Global) -> Result<StubClass, AllocError>
    ensures sound { IfOk result (λ c. IsSoundStub c × (c.is_patch ≡ false)) }
    ensures linkable { IfOk result (λ c. IsLinkable (origins.Stub c ∷ [])) }
{
    let methods = vec![in alloc; constructor(alloc)?]?;
    let fields = vec![in alloc; field(alloc)?]?;
    Ok(StubClass {
        file: Name::from_string(String::from_str(alloc, "base.toml")?),
        name: bytes(alloc, b"java/lang/Object")?,
        super_class: Sequence::from_vec(Vec::new(alloc)),
        interfaces: Sequence::from_vec(Vec::new(alloc)),
        is_interface: false,
        is_patch: false,
        methods: Sequence::from_vec(methods),
        fields: Sequence::from_vec(fields),
    })
}

/// The class alone, as the classes of a program.
fn object_alone(alloc: Global) -> Result<Vec<Origin>, AllocError>
    ensures sound { IfOk result (λ order. All IsSoundOrigin order.items) }
    ensures linkable { IfOk result (λ order. IsLinkable order.items) }
{
    Ok(vec![in alloc; Origin::Stub(object_class(alloc)?)]?)
}

/// What the program says of its class.
fn look_at_class(rt: &impl Abort, program: &Program, object: ClassNo)
    requires { IsClassNumber program.now object.0 }
{
    let names = (
        program.class_name(object),
        program.file_name(object).as_str(),
    );
    see(rt, names, (b"java/lang/Object", "base.toml"));
    let kinds = [program.is_interface(object), program.is_folder(object)];
    see(rt, kinds, [false, false]);
    see(rt, program.super_class(object), None);
    see(rt, program.through_interfaces(object), &[]);
    see(rt, program.is_at_or_above(object, object), true);
}

/// The name and the descriptor of the constructor.
const CONSTRUCTOR: Signature<'static> = Signature {
    name: b"<init>",
    descriptor: b"()V",
};

/// What the program says of the constructor.
fn look_at_method(rt: &impl Abort, program: &Program, object: ClassNo)
    requires { IsClassNumber program.now object.0 }
{
    let Some(number) = program.declared_method(object, CONSTRUCTOR) else {
        panic!(rt; "there is no constructor");
    };
    let told = (number, program.method(number).flags);
    see(rt, told, (MethodNo(0), 0x0001));
    let body = program.method_body(number);
    see(rt, matches!(body, MethodBody::Described(_)), true);
}

/// The name and the descriptor of the field.
const FIELD: Signature<'static> = Signature {
    name: b"held",
    descriptor: b"I",
};

/// What the program says of the field.
fn look_at_field(rt: &impl Abort, program: &Program, object: ClassNo)
    requires { IsClassNumber program.now object.0 }
{
    see(rt, program.declared_method(object, FIELD), None);
    let Some(number) = program.declared_field(object, FIELD) else {
        panic!(rt; "there is no field");
    };
    let field = program.field(number);
    see(rt, (field.signature.name, field.flags), (b"held", 0x0009));
}

/// What the program says of its class, the constructor and the field.
fn look_at_program(rt: &impl Abort, program: &Program) {
    program.well_formed();
    see(rt, program.class_count(), 1);
    see(rt, program.find(b"java/lang/String"), None);
    let Some(object) = program.find(b"java/lang/Object") else {
        panic!(rt; "there is no class");
    };
    see(rt, object, ClassNo(0));
    look_at_class(rt, program, object);
    look_at_method(rt, program, object);
    look_at_field(rt, program, object);
}

#[test]
fn a_program_says_what_it_has(rt: HostRuntime) -> Result<(), Fail> {
    let program = Program::assemble(rt.alloc(), object_alone(rt.alloc())?)?;
    look_at_program(&rt, &program);
    Ok(())
}
