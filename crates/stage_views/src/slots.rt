//! What is known of the slots at a node.

ghost use Rattle.std.specs.Prelude.{◌≡◌, ℕ, ◌+◌};
ghost use Rattle.op_model.specs.declared.lowered.LoweredMethod.{LoweredMethod as RuleMethod};
ghost use Rattle.op_model.specs.declared.node.Node.{Node as RuleNode};
ghost use Rattle.points_to_rules.specs.Facts.{variable};
ghost use Rattle.stage_transfer.specs.Settings.{Setting, same_variable};

use jvm_model::{FieldNo, MethodNo};

/// What is known of the slots at a node of a method, and of what methods write. No call takes memory.
pub trait NodeSlots {
    /// It is about the site of this setting, and tells the answers of the setting at this node of this method.
    ghost knows: { Self → Setting → RuleMethod → RuleNode → Type 0 };

    /// How many local variables the method has; the first unit of the operand stack is the slot of this number.
    fn locals(&self) -> u32
        ensures { (w : Setting) (l : RuleMethod) (n : RuleNode) → knows self.now w l n → result ≡ l.slots };

    /// How many slots the method has: local variables, and units of the operand stack.
    fn slots(&self) -> u32
        ensures { (w : Setting) (l : RuleMethod) (n : RuleNode) → knows self.now w l n → result ≡ l.slots + l.stack };

    /// Whether two slots have one variable at the node.
    fn share(&self, first: u32, second: u32) -> bool
        ensures { (w : Setting) (l : RuleMethod) (n : RuleNode) → knows self.now w l n
            → result ≡ same_variable (w.answers.variable_at l n first) (w.answers.variable_at l n second) };

    /// Whether a slot may refer to an object of the site at the node.
    fn may_refer(&self, slot: u32) -> bool
        ensures { (w : Setting) (l : RuleMethod) (n : RuleNode) → knows self.now w l n
            → result ≡ w.answers.may_hold_site (variable (w.answers.variable_at l n slot)) w.site };

    /// Whether a slot may refer to no object of another site at the node.
    fn refers_to_no_other(&self, slot: u32) -> bool
        ensures { (w : Setting) (l : RuleMethod) (n : RuleNode) → knows self.now w l n
            → result ≡ w.answers.holds_no_other (variable (w.answers.variable_at l n slot)) w.site };

    /// Whether a method, or one that it calls or starts, may write an instance field.
    fn may_write(&self, target: MethodNo, field: FieldNo) -> bool
        ensures { (w : Setting) (l : RuleMethod) (n : RuleNode) → knows self.now w l n → result ≡ w.answers.may_write_field target field };
}
