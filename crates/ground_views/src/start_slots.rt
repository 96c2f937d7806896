//! The slots at the start of the program.

ghost use Rattle.ground.specs.Findings.{Findings};

use ground::Ground;
use jvm_model::{FieldNo, MethodNo};
use stage_views::NodeSlots;

/// What is known of the slots at the start of the program: there are none.
#[derive(Clone, Copy)]
pub struct StartSlots<'g, 'p> {
    pub ground: &'g Ground<'p>,
}

impl NodeSlots for StartSlots<'_, '_> {
    ghost use Rattle.ground_views.specs.AtStart.{IsKnownAtStart};

    ghost knows = { λ s w l n. IsKnownAtStart s.ground.now w l n };

    fn locals(&self) -> u32 {
        0
    }

    fn slots(&self) -> u32 {
        0
    }

    fn share(&self, _first: u32, _second: u32) -> bool {
        true
    }

    fn may_refer(&self, _slot: u32) -> bool {
        false
    }

    fn refers_to_no_other(&self, _slot: u32) -> bool {
        false
    }

    fn may_write(&self, target: MethodNo, field: FieldNo) -> bool {
        self.ground.may_write(target, field)
    }
}
