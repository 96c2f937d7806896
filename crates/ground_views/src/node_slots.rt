//! The slots at a node, be it of a method or of the start of the program.

use crate::start_slots::StartSlots;
use jvm_model::{FieldNo, MethodNo};
use stage_slots::SlotsAt;
use stage_views::NodeSlots;

/// What is known of the slots at a node: of a method, or of the start of the program.
#[derive(Drop)]
pub enum AnySlots<'g, 'p> {
    Method(SlotsAt<'g, 'p>),
    Start(StartSlots<'g, 'p>),
}

impl NodeSlots for AnySlots<'_, '_> {
    ghost use Rattle.ground_views.specs.Known.{KnownOf};

    ghost knows = { KnownOf };

    fn locals(&self) -> u32 {
        match self {
            AnySlots::Method(slots) => slots.locals(),
            AnySlots::Start(slots) => slots.locals(),
        }
    }

    fn slots(&self) -> u32 {
        match self {
            AnySlots::Method(slots) => slots.slots(),
            AnySlots::Start(slots) => slots.slots(),
        }
    }

    fn share(&self, first: u32, second: u32) -> bool {
        match self {
            AnySlots::Method(slots) => slots.share(first, second),
            AnySlots::Start(slots) => slots.share(first, second),
        }
    }

    fn may_refer(&self, slot: u32) -> bool {
        match self {
            AnySlots::Method(slots) => slots.may_refer(slot),
            AnySlots::Start(slots) => slots.may_refer(slot),
        }
    }

    fn refers_to_no_other(&self, slot: u32) -> bool {
        match self {
            AnySlots::Method(slots) => slots.refers_to_no_other(slot),
            AnySlots::Start(slots) => slots.refers_to_no_other(slot),
        }
    }

    fn may_write(&self, target: MethodNo, field: FieldNo) -> bool {
        match self {
            AnySlots::Method(slots) => slots.may_write(target, field),
            AnySlots::Start(slots) => slots.may_write(target, field),
        }
    }
}
