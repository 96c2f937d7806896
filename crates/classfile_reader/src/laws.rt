//! Laws of class files: they call nothing, and hold of each list of bytes and of each class file.

ghost use Rattle.std.specs.Prelude.{◌≡◌, ℕ, List, Some, Ok, Contains};
ghost use Rattle.jvm_model.specs.declared.class_file.ClassFile.{ClassFile};
ghost use Rattle.jvm_model.specs.declared.reason.Reason.{Reason};
ghost use Rattle.jvm_model.specs.Spelling.{IsSpelling};
ghost use Rattle.jvm_model.specs.Soundness.{PlacedUse, UseHolds, places_of};
ghost use Rattle.classfile_reader.specs.ClassReading.{SpellsReadable, class_of};
ghost use Rattle.classfile_reader.specs.FirstPlace.{IsFirstBreach};
ghost use Rattle.classfile_reader.specs.Order.{IsNotBefore, AreAscending};

use jvm_model::Reason;

/// Bytes spell at most one class file, of whatever version and size.
pub fn one_class_file()
    ensures { (bytes : List ℕ) (c d : ClassFile) → IsSpelling bytes c → IsSpelling bytes d → c ≡ d }
{}

/// Bytes that spell a class file, in a version and a size that are read, read as that one.
pub fn readable_is_read()
    ensures { (bytes : List ℕ) (c : ClassFile) → SpellsReadable bytes c → class_of bytes ≡ Ok c }
{}

/// The places of a class file stand in the order of their offsets, and at one offset in that of their reasons.
pub fn places_ascend()
    ensures { (c : ClassFile) → AreAscending ⟦<Reason as Ord>⟧.cmp (places_of c) }
{}

/// The first place that does not hold is the least one: no place that does not hold has a lower offset, or the same
/// offset and a lower reason.
pub fn first_breach_is_least()
    ensures { (c : ClassFile) (offset : ℕ) (reason : Reason) → IsFirstBreach c.pool (places_of c) (Some (offset, reason))
        → (p : PlacedUse) → Contains (places_of c) p → ¬ UseHolds c.pool p.use_ → IsNotBefore ⟦<Reason as Ord>⟧.cmp offset reason p }
{}
