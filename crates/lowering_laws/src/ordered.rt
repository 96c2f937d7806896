//! The law of the order: with the order of moves, of successors and of thrown classes, the nodes of a method are one list.

ghost use Rattle.std.specs.Prelude.{◌≡◌, ℕ};
ghost use Rattle.jvm_model.specs.declared.code.Code.{Code};
ghost use Rattle.jvm_model.specs.LinkedPrograms.{IsProgram};
ghost use Rattle.jvm_model.specs.Programs.{Program};
ghost use Rattle.flow_graph.specs.declared.steps.Graph.{Graph};
ghost use Rattle.op_model.specs.declared.lowered.LoweredMethod.{LoweredMethod};
ghost use Rattle.lowering.specs.Orders.{AreInOrder};
ghost use Rattle.lowering.specs.Refusals.{IsAccepted};

/// The nodes with which a method of a program is accepted, in order, are one list.
pub fn one_ordered_method()
    ensures { (p : Program) (number : ℕ) (code : Code) (graph : Graph) (a b : LoweredMethod)
        → IsProgram p → IsAccepted p number code graph a → IsAccepted p number code graph b
        → AreInOrder p number code graph a → AreInOrder p number code graph b → a ≡ b }
{}
