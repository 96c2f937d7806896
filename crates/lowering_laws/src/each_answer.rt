//! The laws of the answer: a method's code and graph have a first refusal, or nodes.

ghost use Rattle.std.specs.Prelude.{◌⊎◌, ℕ};
ghost use Rattle.jvm_model.specs.declared.code.Code.{Code};
ghost use Rattle.jvm_model.specs.declared.reason.Refusal.{Refusal};
ghost use Rattle.jvm_model.specs.LinkedPrograms.{IsProgram};
ghost use Rattle.jvm_model.specs.Programs.{Program};
ghost use Rattle.flow_graph.specs.declared.steps.Graph.{Graph};
ghost use Rattle.op_model.specs.declared.lowered.LoweredMethod.{LoweredMethod};
ghost use Rattle.lowering_handlers.specs.Entries.{AreKnown};
ghost use Rattle.lowering.specs.Orders.{AreInOrder};
ghost use Rattle.lowering.specs.Refusals.{AreFree, IsAccepted, IsOwnCode, IsRefused};

/// A method of a program is refused, or no instruction that is reached has a reason, and no entry that covers one takes a class
/// that is not in the program.
pub fn each_method_is_judged()
    ensures { (p : Program) (number : ℕ) (code : Code) (graph : Graph) → IsProgram p → (own : IsOwnCode p number code graph)
        → ((r : Refusal) × IsRefused p number code graph r)
        ⊎ (AreFree p own.method own.file.pool code graph.steps × AreKnown p own.file.pool code.handlers graph.steps) }
{}

/// A method of a program has its nodes, in order, or a refusal.
pub fn each_method_lowers()
    ensures { (p : Program) (number : ℕ) (code : Code) (graph : Graph) → IsProgram p → IsOwnCode p number code graph
        → ((l : LoweredMethod) × IsAccepted p number code graph l × AreInOrder p number code graph l) ⊎ ((r : Refusal) × IsRefused p number code graph r) }
{}
