//! Laws of resolution (JVMS 5.4.3.2, 5.4.3.3, 5.4.3.4): a reference in a program resolves to a member, or has a reason why to
//! none.

ghost use Rattle.std.specs.Prelude.{◌≡◌, ℕ, Bool, Result, Some};
ghost use Rattle.jvm_model.specs.declared.reason.Reason.{Reason};
ghost use Rattle.jvm_model.specs.Lookups.{Signature};
ghost use Rattle.jvm_model.specs.Programs.{Class, Program};
ghost use Rattle.jvm_model.specs.Resolution.{MethodResolution, FieldResolution};
ghost use Rattle.jvm_model.specs.Subtypes.{class_named};
ghost use Rattle.jvm_model.specs.LinkedPrograms.{IsProgram};

/// A reference to a method gives, in a program, a method, or a reason.
pub fn each_method_resolution()
    ensures { (p : Program) (c : Class) (by_interface : Bool) (s : Signature) → IsProgram p
        → (outcome : Result ℕ Reason) × MethodResolution p c by_interface s outcome }
{}

/// A reference to a field of a class of a program gives a field, or a reason.
pub fn each_field_resolution()
    ensures { (p : Program) (c : Class) (s : Signature) (wants_static : Bool) → IsProgram p → class_named p c.name ≡ Some c
        → (outcome : Result ℕ Reason) × FieldResolution p c s wants_static outcome }
{}
