//! Laws of the nodes of a method: they call nothing, and hold of each program.

ghost use Rattle.std.specs.Prelude.{◌≡◌, ℕ, List, map};
ghost use Rattle.jvm_model.specs.declared.code.Code.{Code};
ghost use Rattle.jvm_model.specs.declared.pool.PoolEntry.{PoolEntry};
ghost use Rattle.jvm_model.specs.Programs.{Program};
ghost use Rattle.flow_graph.specs.declared.steps.Graph.{Graph};
ghost use Rattle.flow_graph.specs.declared.steps.GraphStep.{GraphStep};
ghost use Rattle.op_model.specs.declared.lowered.LoweredMethod.{LoweredMethod};
ghost use Rattle.op_model.specs.declared.node.Node.{Node};
ghost use Rattle.lowering_spec.specs.LoweredMethods.{IsLowered};

/// The nodes stand at the offsets of the instructions that are reached, in their order.
pub fn nodes_stand_at_steps()
    ensures { (p : Program) (number : ℕ) (pool : List PoolEntry) (code : Code) (graph : Graph) (l : LoweredMethod)
        → IsLowered p number pool code graph l → map (λ (n : Node). n.offset) l.nodes ≡ map (λ (s : GraphStep). s.offset) graph.steps }
{}
