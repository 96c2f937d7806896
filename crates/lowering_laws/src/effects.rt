//! What the instructions of code that was read do to the height of the operand stack.

ghost use Rattle.std.specs.Prelude.{List};
ghost use Rattle.jvm_model.specs.declared.class_file.ClassFile.{ClassFile};
ghost use Rattle.jvm_model.specs.declared.code.Code.{Code};
ghost use Rattle.jvm_model.specs.Soundness.{IsSoundClass};
ghost use Rattle.flow_graph.specs.declared.effect.Effect.{Effect};
ghost use Rattle.flow_graph.specs.Effects.{HaveEffects};
ghost use Rattle.flow_graph.specs.Graphing.{IsCodeOf};

/// Each instruction of the code of a method pops and pushes so many units, where the class file is sound.
pub fn each_code_has_effects()
    ensures { (c : ClassFile) (code : Code) → IsSoundClass c → IsCodeOf c code → (effects : List Effect) × HaveEffects c.pool code.instructions effects }
{}
