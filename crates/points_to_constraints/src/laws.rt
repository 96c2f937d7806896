//! Laws of items: they call nothing, and hold of each program.

ghost use Rattle.std.specs.Prelude.{List};
ghost use Rattle.jvm_model.specs.declared.number.MethodNo.{MethodNo};
ghost use Rattle.jvm_model.specs.Programs.{Program};
ghost use Rattle.op_model.specs.Supplies.{Given};
ghost use Rattle.least_sets.specs.Rules.{IsDerivable, IsLeast};
ghost use Rattle.points_to_rules.specs.Facts.{Fact};
ghost use Rattle.points_to_rules.specs.Rules.{Instance};
ghost use Rattle.points_to_rules.specs.WholeMethods.{AreWholeMethods, as_given};
ghost use Rattle.points_to_constraints.specs.Items.{Item, facts_of, known};
ghost use Rattle.points_to_constraints.specs.ItemRules.{ItemInstance};

/// A fact that is derivable by items is derivable by the rules.
pub fn derivable_by_items()
    ensures { (p : Program) (given : Given) (entry : MethodNo) (fact : Fact)
        → IsDerivable (ItemInstance p (as_given given) entry) (known fact) → IsDerivable (Instance p (as_given given) entry) fact }
{}

/// The facts among the least items are the least facts.
pub fn least_by_items()
    ensures { (p : Program) (given : Given) (entry : MethodNo) (items : List Item) → AreWholeMethods p (as_given given)
        → IsLeast (ItemInstance p (as_given given) entry) items → IsLeast (Instance p (as_given given) entry) (facts_of items) }
{}
