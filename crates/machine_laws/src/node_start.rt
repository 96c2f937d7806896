//! That there are the nodes of the start, and that first states go on.

ghost use Rattle.std.specs.Prelude.{◌≡◌, true, List, ◌∷◌, Option, Some, None, ℕ, slice_get};
ghost use Rattle.jvm_model.specs.LinkedPrograms.{IsProgram};
ghost use Rattle.jvm_model.specs.Programs.{Method};
ghost use Rattle.op_model.specs.declared.node.Node.{Node};
ghost use Rattle.op_model.specs.declared.op.Op.TheVariants.{Return};
ghost use Rattle.op_model.specs.Supplies.{Given};
ghost use Rattle.machine_bytecode.specs.Machine.{AtStart};
ghost use Rattle.machine_bytecode.specs.Objects.{Subject};
ghost use Rattle.machine_bytecode.specs.Start.{IsFirst};
ghost use Rattle.machine_bytecode.specs.States.{Frame, State};
ghost use Rattle.machine_nodes.specs.Nodes.{AreStartNodes};
ghost use Rattle.machine_nodes.specs.NodeSteps.{AtNode, EntersEntry};
ghost use Rattle.machine_laws.specs.NodeProgress.{IsGiven, ReturnsTo};

/// The start of each program with the entry has its nodes.
pub fn start_nodes_are_there()
    ensures { (x : Subject) (entry : Method) → slice_get x.program.methods x.entry ≡ Some entry → IsProgram x.program
        → (nodes : List Node) × AreStartNodes x nodes }
{}

/// From a first state the entry is called, if it is given as nodes.
pub fn first_states_go_on()
    ensures { (x : Subject) (given : Given) (s : State) → IsFirst x s → IsGiven given x.entry
        → (at : AtStart s 0) × (t : State) × EntersEntry x given s t at }
{}

/// The return of the entry leads to the second node of the start.
pub fn entries_return()
    ensures { (x : Subject) (given : Given) (s : State) (at : AtNode x given s) (value : Option ℕ) → at.now.node.op ≡ Return value
        → (caller : Frame) (rest : List Frame) → at.below ≡ caller ∷ rest → caller.method ≡ None → caller.offset ≡ 0 → caller.waits ≡ true
        → (nodes : List Node) → AreStartNodes x nodes → ReturnsTo x given s at 1 }
{}
