//! Whether methods have code, and classes initialisers.

ghost use Rattle.std.specs.Prelude.{◌⊎◌, ℕ, List};
ghost use Rattle.jvm_model.specs.LinkedPrograms.{IsProgram};
ghost use Rattle.jvm_model.specs.Programs.{Program};
ghost use Rattle.machine_bytecode.specs.Machine.{MethodCode, IsInitialiser};

/// Whether a method of a program has code is decided: it has, or it has not.
pub fn code_is_decided()
    ensures { (p : Program) → IsProgram p → (number : ℕ) → MethodCode p number ⊎ (MethodCode p number → ⊥) }
{}

/// Whether a class of a program has an initialiser, of its own or of a supertype, is decided: it has, or it has not.
pub fn initialisers_are_decided()
    ensures { (p : Program) → IsProgram p → (class : List ℕ) → ((number : ℕ) × IsInitialiser p class number) ⊎ ((number : ℕ) → IsInitialiser p class number → ⊥) }
{}
