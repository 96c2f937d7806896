//! The slots at a node, as the ground knows them.

ghost use Rattle.std.specs.Prelude.{◌≡◌, ◌<◌, ◌+◌, Some, slice_get, IfSome, IfNone};
ghost use Rattle.op_model.specs.declared.lowered.LoweredMethod.{LoweredMethod as RuleMethod};
ghost use Rattle.op_model.specs.declared.node.Node.{Node as RuleNode};
ghost use Rattle.ground.specs.Findings.{HasNode};
ghost use Rattle.stage_transfer.specs.Settings.{Setting};
ghost use Rattle.stage_slots.specs.Known.{IsKnownIn, IsOf};

use crate::same::same_variable;
use ground::{Ground, NodePlace};
use jvm_model::{FieldNo, MethodNo, SiteNo};
use op_model::LoweredMethod;
use slot_names::Variable;
use stage_views::NodeSlots;
use std::marker::Model;

/// The slots at the node of a place, as they are known for the objects of a site. Contracts see what is known, and of which node.
#[derive(Drop)]
pub struct SlotsAt<'g, 'p> {
    ground: &'g Ground<'p>,
    method: &'g LoweredMethod,
    slots: u32,
    at: NodePlace,
    site: SiteNo,
}

impl<'g, 'p> Model for SlotsAt<'g, 'p> {
    ghost use Rattle.std.specs.Prelude.{◌≡◌, ◌+◌};
    ghost use Rattle.stage_slots.specs.Known.{HasReachedNode, KnownNode};

    ghost Value = { KnownNode };

    ghost view = { λ s. record { ground = s.ground.now; at = s.at; method = s.method.now; site = s.site } };

    ghost invariant = { λ s. HasReachedNode s.ground.now s.at s.method.now × (s.slots ≡ s.method.now.slots + s.method.now.stack) };
}

impl<'g, 'p> SlotsAt<'g, 'p> {
    /// The slots at the node of a place; `None` where its method has more slots than 32 bits count. It takes no memory.
    pub fn of(ground: &'g Ground<'p>, at: NodePlace, site: SiteNo) -> Option<SlotsAt<'g, 'p>>
        requires { HasNode ground.now at }
        ensures some { IfSome result (λ s. IsOf ground.now at site s) }
        ensures none { IfNone result ((l : RuleMethod) → slice_get ground.now.methods at.method ≡ Some l → 4294967295 < l.slots + l.stack) }
    {
        ground.well_formed();
        let method = ground.method(at.method);
        let slots = method.slots.checked_add(method.stack)?;
        Some(SlotsAt {
            ground,
            method,
            slots,
            at,
            site,
        })
    }

    /// The variable of a slot: the one that is answered.
    fn variable(&self, slot: u32) -> Variable
        ensures { (w : Setting) (l : RuleMethod) (n : RuleNode) → IsKnownIn self.now w l n → result ≡ w.answers.variable_at l n slot }
    {
        self.ground.variable(self.at, slot)
    }
}

impl<'g, 'p> NodeSlots for SlotsAt<'g, 'p> {
    ghost use Rattle.stage_slots.specs.Known.{IsKnownIn};

    ghost knows = { IsKnownIn };

    fn locals(&self) -> u32 {
        self.method.slots
    }

    fn slots(&self) -> u32 {
        self.slots
    }

    fn share(&self, first: u32, second: u32) -> bool {
        same_variable(self.variable(first), self.variable(second))
    }

    fn may_refer(&self, slot: u32) -> bool {
        match self.ground.place_of_slot(self.at, slot) {
            Some(place) => self.ground.holds(place, self.site),
            None => false,
        }
    }

    fn refers_to_no_other(&self, slot: u32) -> bool {
        match self.ground.place_of_slot(self.at, slot) {
            Some(place) => {
                self.ground.sites_at(place).is_empty() || self.ground.holds_alone(place, self.site)
            }
            None => true,
        }
    }

    fn may_write(&self, target: MethodNo, field: FieldNo) -> bool {
        self.ground.may_write(target, field)
    }
}
