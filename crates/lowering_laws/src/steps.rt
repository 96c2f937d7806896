//! What each step of a flow graph has.

ghost use Rattle.std.specs.Prelude.{Contains};
ghost use Rattle.jvm_model.specs.declared.class_file.ClassFile.{ClassFile};
ghost use Rattle.jvm_model.specs.declared.code.Code.{Code};
ghost use Rattle.flow_graph.specs.declared.steps.Graph.{Graph};
ghost use Rattle.flow_graph.specs.declared.steps.GraphStep.{GraphStep};
ghost use Rattle.flow_graph.specs.Graphing.{IsFlow};
ghost use Rattle.lowering_laws.specs.StepRows.{HasRow};

/// Each step of a flow graph has its instruction, and, unless the action of its opcode is the refused one, a row with what the
/// constant pool says of its units, which pops no more units than there are.
pub fn steps_have_rows()
    ensures { (c : ClassFile) (code : Code) (g : Graph) → IsFlow c code g → (s : GraphStep) → Contains g.steps s → HasRow c code s }
{}
