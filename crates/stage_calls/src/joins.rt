//! Paths of the caller that join what an exit hands on.

ghost use Rattle.std.specs.Prelude.{◌≡◌};
ghost use Rattle.std.specs.List.{list_any};
ghost use Rattle.access_paths.specs.Followed.{listed};
ghost use Rattle.op_model.specs.declared.lowered.LoweredMethod.{LoweredMethod as RuleMethod};
ghost use Rattle.op_model.specs.declared.node.Node.{Node as RuleNode};
ghost use Rattle.stage_transfer.specs.Settings.{Setting};

use crate::path_test::PathTest;
use crate::roots::is_kept;
use access_paths::{Fields, Path};
use jvm_model::MethodNo;
use stage_views::{Entering, NodeSlots};

/// Whether a path of the caller joins: it begins at a slot that is as it was, and passes no field that the target may write.
#[derive(Drop)]
pub(crate) struct Joins<'j, V> {
    pub(crate) slots: &'j V,
    pub(crate) by: Entering<'j>,
    pub(crate) target: MethodNo,
}

impl<V: NodeSlots> PathTest for Joins<'_, V> {
    ghost use Rattle.stage_views.specs.Views.{entering_of};
    ghost use Rattle.stage_calls.specs.Testing.{IsJoinTest};

    ghost computes = { λ x p. IsJoinTest (V.knows x.slots.now) (entering_of x.by) x.target p };

    fn holds(&self, path: &Path) -> bool {
        is_kept(self.by, path.root()) && !may_write_one(self.slots, self.target, path.fields())
    }
}

/// Whether the target may write one of the fields.
fn may_write_one<V: NodeSlots>(slots: &V, target: MethodNo, fields: Fields) -> bool
    ensures { (w : Setting) (l : RuleMethod) (n : RuleNode) → V.knows slots.now w l n → result ≡ list_any (w.answers.may_write_field target) (listed fields) }
{
    match fields {
        Fields::Zero => false,
        Fields::One(first) => slots.may_write(target, first),
        Fields::Two(first, second) => {
            slots.may_write(target, first) || slots.may_write(target, second)
        }
        Fields::Three(first, second, third) => {
            slots.may_write(target, first)
                || slots.may_write(target, second)
                || slots.may_write(target, third)
        }
    }
}
