//! What the class, its superclass and its interfaces break (JVMS 4.1).

ghost use Rattle.std.specs.Prelude.{◌<◌, ◌+◌, ◌*◌, ◌^◌, length, []};
ghost use Rattle.jvm_model.specs.Soundness.{at_offset, class_uses, each_place, header_places};
ghost use Rattle.jvm_model.specs.Spelling.{spell};
ghost use Rattle.classfile_reader.specs.FirstPlace.{IsFirstBreach};

use crate::soundness::uses::{at_offset, class_reason, superclass_reason};
use jvm_model::layout::{INDEX, SUPER_CLASS, THIS_CLASS, flags_offset, interfaces_offset};
use jvm_model::{ClassFile, PoolEntry, Reason};

/// The first fault of the interfaces, which begin at an offset.
fn interfaces_fault(pool: &[PoolEntry], start: u32, interfaces: &[u16]) -> Option<(u32, Reason)>
    requires { start + 2 * length interfaces.now < 2 ^ 32 }
    ensures { IsFirstBreach pool.now (each_place (λ offset earlier index. at_offset offset (class_uses index)) (λ index. 2) start [] interfaces.now) result }
{
    let mut offset = start;
    for interface in interfaces {
        let reason = class_reason(pool, *interface);
        if let Some(fault) = at_offset(offset, reason) {
            return Some(fault);
        }
        offset += INDEX;
    }
    None
}

/// The first fault of the class, its superclass and its interfaces.
pub(crate) fn header_fault(class: &ClassFile) -> Option<(u32, Reason)>
    requires { length (spell class.now) < 2 ^ 32 }
    ensures { IsFirstBreach class.now.pool (header_places class.now) result }
{
    let pool = class.pool.as_slice();
    let flags = flags_offset(class);
    let reason = class_reason(pool, class.this_class);
    if let Some(fault) = at_offset(flags + THIS_CLASS, reason) {
        return Some(fault);
    }
    let reason = superclass_reason(pool, class.this_class, class.super_class);
    if let Some(fault) = at_offset(flags + SUPER_CLASS, reason) {
        return Some(fault);
    }
    let interfaces = class.interfaces.as_slice();
    interfaces_fault(pool, interfaces_offset(class), interfaces)
}
