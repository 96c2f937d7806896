//! Laws of subtypes (JVMS 4.10.1.2, 5.5): a class has one chain of superclasses, no two classes are above each other, and it
//! is decided whether a class is below another one, and whether an object fits a type.

ghost use Rattle.std.specs.Prelude.{◌≡◌, ◌⊎◌, ℕ, List, Option, Contains};
ghost use Rattle.jvm_model.specs.Programs.{Class, Program};
ghost use Rattle.jvm_model.specs.Subtypes.{IsSubtype, IsChain, Fits};
ghost use Rattle.jvm_model.specs.LinkedPrograms.{IsProgram, class_names};

/// A name begins at most one chain of superclasses, whatever classes there are.
pub fn some_chain_is_one()
    ensures { (p : Program) (start : Option (List ℕ)) (a b : List Class) → IsChain p start a → IsChain p start b → a ≡ b }
{}

/// Two classes that are subtypes of each other are the same, if one of them is in the program.
pub fn subtypes_are_ordered()
    ensures { (p : Program) (x y : List ℕ) → IsProgram p → IsSubtype p x y → IsSubtype p y x
        → Contains (class_names p) y → x ≡ y }
{}

/// Whether a class is a subtype of another one is decided: it is, or it is not.
pub fn subtypes_are_decided()
    ensures { (p : Program) (above name : List ℕ) → IsSubtype p above name ⊎ (IsSubtype p above name → ⊥) }
{}

/// Whether an object of a class or an array fits a type is decided: it does, or it does not.
pub fn fits_is_decided()
    ensures { (p : Program) (upper lower : List ℕ) → Fits p upper lower ⊎ (Fits p upper lower → ⊥) }
{}
