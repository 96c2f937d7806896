//! Laws of the reasons for which an instruction has no node, in a program: each of them holds or does not, and of those that hold
//! there is a first one.

ghost use Rattle.std.specs.Prelude.{◌⊎◌, Option};
ghost use Rattle.jvm_model.specs.declared.reason.Reason.{Reason};
ghost use Rattle.jvm_model.specs.LinkedPrograms.{IsProgram};
ghost use Rattle.lowering_reasons.specs.Reasons.{Judged, HasReason, IsFirstReason};

/// An instruction has a reason, or does not have it.
pub fn reasons_are_decided()
    ensures { (j : Judged) (reason : Reason) → IsProgram j.program → HasReason j reason ⊎ (HasReason j reason → ⊥) }
{}

/// An instruction has a first reason, or none.
pub fn each_first_reason()
    ensures { (j : Judged) → IsProgram j.program → (first : Option Reason) × IsFirstReason j first }
{}
