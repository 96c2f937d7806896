//! The laws of the answer: an instruction has one first reason, and a method one refusal, or nodes.

ghost use Rattle.std.specs.Prelude.{◌≡◌, ℕ, Option};
ghost use Rattle.jvm_model.specs.declared.code.Code.{Code};
ghost use Rattle.jvm_model.specs.declared.reason.Reason.{Reason};
ghost use Rattle.jvm_model.specs.declared.reason.Refusal.{Refusal};
ghost use Rattle.jvm_model.specs.LinkedPrograms.{IsProgram};
ghost use Rattle.jvm_model.specs.Programs.{Program};
ghost use Rattle.flow_graph.specs.declared.steps.Graph.{Graph};
ghost use Rattle.op_model.specs.declared.lowered.LoweredMethod.{LoweredMethod};
ghost use Rattle.lowering_reasons.specs.Reasons.{Judged, IsFirstReason};
ghost use Rattle.lowering.specs.Refusals.{IsAccepted, IsRefused};
ghost use Rattle.lowering_laws.specs.Alike.{AlikeMethods};

/// An instruction has one first reason, or none.
pub fn one_first_reason()
    ensures { (j : Judged) (a b : Option Reason) → IsFirstReason j a → IsFirstReason j b → a ≡ b }
{}

/// A method has at most one refusal.
pub fn one_refusal()
    ensures { (p : Program) (number : ℕ) (code : Code) (graph : Graph) (a b : Refusal)
        → IsRefused p number code graph a → IsRefused p number code graph b → a ≡ b }
{}

/// No method is refused and has nodes.
pub fn refused_or_accepted()
    ensures { (p : Program) (number : ℕ) (code : Code) (graph : Graph) (r : Refusal) (l : LoweredMethod)
        → IsRefused p number code graph r → IsAccepted p number code graph l → ⊥ }
{}

/// The nodes with which a method of a program is accepted are one list, but for the order and the repeats of moves, of successors and of
/// thrown classes.
pub fn one_acceptance()
    ensures { (p : Program) (number : ℕ) (code : Code) (graph : Graph) (a b : LoweredMethod)
        → IsProgram p → IsAccepted p number code graph a → IsAccepted p number code graph b → AlikeMethods a b }
{}
