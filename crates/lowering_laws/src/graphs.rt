//! The flow graph of the code of a method, or its first fault: that it is there.

ghost use Rattle.std.specs.Prelude.{Result, IfOk};
ghost use Rattle.failure.specs.declared.Failure.{Failure};
ghost use Rattle.jvm_model.specs.declared.class_file.ClassFile.{ClassFile};
ghost use Rattle.jvm_model.specs.declared.code.Code.{Code};
ghost use Rattle.jvm_model.specs.declared.reason.Fault.{Fault};
ghost use Rattle.jvm_model.specs.Soundness.{IsSoundClass};
ghost use Rattle.flow_graph.specs.declared.steps.Graph.{Graph};
ghost use Rattle.flow_graph.specs.Graphing.{IsCodeOf, IsFlow};
ghost use Rattle.flow_graph.specs.Graphs.{TellsGraph, IsTold};

/// The code of each method of a sound class file has a flow graph, or a first fault: the walk over it ends.
pub fn each_code_has_a_graph()
    ensures { (c : ClassFile) (code : Code) → IsSoundClass c → IsCodeOf c code
        → (answer : Result Graph (Failure Fault)) × TellsGraph c code answer × IsTold answer × IfOk answer (IsFlow c code) }
{}
