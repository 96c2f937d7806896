//! Laws of resolution (JVMS 5.4.3.2, 5.4.3.3, 5.4.3.4): a reference in a program resolves to one member, or has one
//! reason why to none.

ghost use Rattle.std.specs.Prelude.{◌≡◌, ℕ, Bool, Result};
ghost use Rattle.jvm_model.specs.declared.reason.Reason.{Reason};
ghost use Rattle.jvm_model.specs.Lookups.{Signature};
ghost use Rattle.jvm_model.specs.Programs.{Class, Program};
ghost use Rattle.jvm_model.specs.Resolution.{MethodResolution, FieldResolution};
ghost use Rattle.jvm_model.specs.LinkedPrograms.{IsProgram};

/// A reference to a field of a class gives, in a program, one field, or one reason.
pub fn one_field_resolution()
    ensures { (p : Program) (c : Class) (s : Signature) (wants_static : Bool) (a b : Result ℕ Reason) → IsProgram p
        → FieldResolution p c s wants_static a → FieldResolution p c s wants_static b → a ≡ b }
{}

/// A reference to a method of a class gives, in a program, one method, or one reason.
pub fn one_method_resolution()
    ensures { (p : Program) (c : Class) (by_interface : Bool) (s : Signature) (a b : Result ℕ Reason) → IsProgram p
        → MethodResolution p c by_interface s a → MethodResolution p c by_interface s b → a ≡ b }
{}
