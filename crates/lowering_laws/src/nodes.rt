//! The laws of nodes: what the definitions say of an instruction's node leaves no choice but the order and the repeats in some lists.

ghost use Rattle.std.specs.Prelude.{◌≡◌, ℕ, List};
ghost use Rattle.jvm_model.specs.declared.code.Code.{Code};
ghost use Rattle.jvm_model.specs.declared.pool.PoolEntry.{PoolEntry};
ghost use Rattle.jvm_model.specs.Instructions.{DecodedInstruction, IsRowAt};
ghost use Rattle.jvm_model.specs.LinkedPrograms.{IsProgram};
ghost use Rattle.jvm_model.specs.Programs.{Program};
ghost use Rattle.jvm_model.specs.Table.{Row};
ghost use Rattle.flow_graph.specs.declared.steps.Graph.{Graph};
ghost use Rattle.op_model.specs.declared.lowered.LoweredMethod.{LoweredMethod};
ghost use Rattle.op_model.specs.declared.op.Op.{Op};
ghost use Rattle.lowering_spec.specs.Operations.{IsOp, Placed};
ghost use Rattle.lowering_spec.specs.LoweredMethods.{IsLowered};
ghost use Rattle.lowering.specs.Refusals.{IsOwnCode};
ghost use Rattle.lowering_laws.specs.Alike.{AlikeMethods, AlikeOps};

/// An instruction has at most one row, once the constant pool is known.
pub fn one_row()
    ensures { (pool : List PoolEntry) (i : DecodedInstruction) (r s : Row) → IsRowAt pool i r → IsRowAt pool i s → r ≡ s }
{}

/// An instruction of a program has at most one operation, but for the order and the repeats of moves.
pub fn one_operation()
    ensures { (i : Placed) (a b : Op) → IsProgram i.program → IsOp i.row.action i a → IsOp i.row.action i b → AlikeOps a b }
{}

/// The nodes of a method of a program are one list, but for the order and the repeats of moves, of successors and of thrown classes.
pub fn nodes_alike()
    ensures { (p : Program) (number : ℕ) (pool : List PoolEntry) (code : Code) (graph : Graph) (a b : LoweredMethod)
        → IsProgram p → IsOwnCode p number code graph → IsLowered p number pool code graph a → IsLowered p number pool code graph b → AlikeMethods a b }
{}
