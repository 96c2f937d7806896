//! Laws of variables: a slot has one at each node, and no second one, and two slots of one variable have one value. Each law calls nothing, and stands on the
//! definitions alone.

ghost use Rattle.std.specs.Prelude.{◌≡◌, ℕ, Contains};
ghost use Rattle.op_model.specs.declared.lowered.LoweredMethod.{LoweredMethod};
ghost use Rattle.op_model.specs.declared.node.Node.{Node};
ghost use Rattle.op_model.specs.Supplies.{Given};
ghost use Rattle.machine_bytecode.specs.Objects.{Subject};
ghost use Rattle.slot_names.specs.declared.variable.Variable.{Variable};
ghost use Rattle.slot_names.specs.Variables.{AreReachedNodes, IsVariable};
ghost use Rattle.slot_names.specs.Sharing.{AreReachedMethods, VariablesHaveValues};

/// A slot has one variable at a node.
pub fn one_variable()
    ensures { (l : LoweredMethod) (n : Node) (z : ℕ) (v w : Variable) → AreReachedNodes l → Contains l.nodes n
        → IsVariable l n z v → IsVariable l n z w → v ≡ w }
{}

/// A slot has a variable at each node of a method whose nodes are all reached.
pub fn each_variable()
    ensures { (l : LoweredMethod) (n : Node) (z : ℕ) → AreReachedNodes l → Contains l.nodes n → (v : Variable) × IsVariable l n z v }
{}

/// In each execution on nodes, two slots of one variable have one value.
pub fn slots_of_one_variable()
    ensures { (x : Subject) (given : Given) → AreReachedMethods given → VariablesHaveValues x given }
{}
