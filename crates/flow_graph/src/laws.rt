//! Laws of the definitions that the contract of `graph` names: they call nothing, and hold of each class file and code.

ghost use Rattle.std.specs.Prelude.{◌≡◌, Result};
ghost use Rattle.jvm_model.specs.declared.class_file.ClassFile.{ClassFile};
ghost use Rattle.jvm_model.specs.declared.code.Code.{Code};
ghost use Rattle.failure.specs.declared.Failure.{Failure};
ghost use Rattle.jvm_model.specs.declared.reason.Fault.{Fault};
ghost use Rattle.flow_graph.specs.declared.steps.Graph.{Graph};
ghost use Rattle.flow_graph.specs.Graphs.{TellsGraph, IsTold};

/// The code of a method has one flow graph, or one first fault: two answers are equal, unless one is out of memory.
pub fn one_graph()
    ensures { (c : ClassFile) (code : Code) (a b : Result Graph (Failure Fault)) → TellsGraph c code a → TellsGraph c code b → IsTold a → IsTold b → a ≡ b }
{}
