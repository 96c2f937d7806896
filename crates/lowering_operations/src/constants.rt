//! The constants that `ldc` and `ldc_w` load (JVMS 6.5.ldc): a number is a primitive, and one object stands for all strings, another
//! for all classes.

ghost use Rattle.std.specs.Prelude.{◌≡◌, ◌<◌, ◌^◌, option_map, IfOk};
ghost use Rattle.jvm_model.specs.RowViews.{row_view};
ghost use Rattle.jvm_model.specs.Table.{load_constant};
ghost use Rattle.machine_bytecode.specs.Start.{boot_site};
ghost use Rattle.op_model.specs.declared.op.Op.TheVariants.{Constant};
ghost use Rattle.lowering_reasons.specs.Reasons.{UsesMethodConstant};
ghost use Rattle.lowering_operations.specs.ByAction.{IsOperation};
ghost use Rattle.lowering_operations.specs.Constants.{constant_class};
ghost use Rattle.lowering_operations.specs.Orders.{IsOrdered};
ghost use Rattle.lowering_operations.specs.Placements.{judged_at};

use crate::moves::cleared;
use crate::placement::Placement;
use crate::sites::copy_of;
use jvm_model::PoolEntry;
use jvm_model::lookup::entry_at;
use jvm_model::site::{Site, SiteKind};
use op_model::Op;
use std::alloc::{AllocError, Global};

/// The operation of an instruction that loads a constant, which is no method handle and no method type.
pub(crate) fn load_constant(alloc: Global, at: Placement<'_>) -> Result<Op, AllocError>
    requires action { (row_view at.row.now).action ≡ load_constant }
    requires no_method { UsesMethodConstant (judged_at at) → ⊥ }
    requires top { at.top < 2 ^ 18 }
    requires operand { at.instruction.now.operand < 2 ^ 16 }
    ensures operation { IfOk result (IsOperation at.entry) }
    ensures order { IfOk result (IsOrdered at.entry) }
{
    match constant_class(at.class.pool.as_slice(), at.instruction.operand as u16) {
        Some(class) => constant(alloc, class, at.top),
        None => cleared(alloc, at.top, 1),
    }
}

/// The class of the constants that stand for the entry at an index: of a string or a class; none of another one.
fn constant_class(pool: &[PoolEntry], index: u16) -> Option<&'static [u8]>
    ensures { option_map (λ class. class.now) result ≡ constant_class pool.now index }
{
    match entry_at(pool, index)? {
        PoolEntry::Str(_) => Some(b"java/lang/String"),
        PoolEntry::Class(_) => Some(b"java/lang/Class"),
        _ => None,
    }
}

/// The reading of the object that stands for the constants of a class.
fn constant(alloc: Global, class: &[u8], target: u32) -> Result<Op, AllocError>
    ensures { IfOk result (λ op. op ≡ Constant (boot_site class.now) target) }
{
    Ok(Op::Constant {
        site: boot_site(alloc, class)?,
        target,
    })
}

/// The site of what is there from the start.
fn boot_site(alloc: Global, class: &[u8]) -> Result<Site, AllocError>
    ensures { IfOk result (λ site. site ≡ boot_site class.now) }
{
    Ok(Site {
        kind: SiteKind::Boot,
        method: None,
        offset: 0,
        class: copy_of(alloc, class)?,
    })
}
