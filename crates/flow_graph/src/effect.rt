//! What an instruction does to the height of the operand stack (JVMS 2.6.2, 6.5).

ghost use Rattle.std.specs.Prelude.{◌≡◌, ◌+◌, ◌≤◌, length, IfOk, Some, map};
ghost use Rattle.std.specs.List.{AllZip};
ghost use Rattle.jvm_model.specs.Instructions.{array_row};
ghost use Rattle.jvm_model.specs.RowViews.{row_view};
ghost use Rattle.jvm_model.specs.Table.{row_of};
ghost use Rattle.flow_graph.specs.Effects.{with_row, IsEffectBy, HasEffect};
ghost use Rattle.flow_graph.specs.Reading.{IsSoundInstruction, HasEffectIfSound, IsCallAt};

use crate::pool_units::PoolUnits;
use crate::units::{field_units, member_descriptor_at, member_text, site_descriptor_at};
use jvm_model::opcode::{Action, Operands, Row, row_of_opcode};
use jvm_model::{ClassFile, Instruction, PlacedInstruction};
use std::alloc::{AllocError, Global};

/// How many units an instruction pops from the operand stack, and how many it pushes then; a long or a double is two
/// units.
#[derive(Clone, Copy, Debug, PartialEq, Eq)]
pub struct Effect {
    pub pops: u16,
    pub pushes: u16,
}

/// What the instructions of a class do, one by one.
pub(crate) fn effects_of(
    alloc: Global,
    class: &ClassFile,
    instructions: &[PlacedInstruction],
) -> Result<Vec<Effect>, AllocError>
    ensures { IfOk result (λ v. AllZip (HasEffectIfSound class.now) instructions.now v.items) }
{
    let mut units = PoolUnits::new(alloc, class.pool.as_slice());
    let mut effects = Vec::new(alloc);
    for placed in instructions {
        effects.push(effect_of(alloc, class, &mut units, &placed.instruction)?)?;
    }
    Ok(effects)
}

/// What an instruction of a class does.
fn effect_of(
    alloc: Global,
    class: &ClassFile,
    units: &mut PoolUnits<'_>,
    instruction: &Instruction,
) -> Result<Effect, AllocError>
    requires { units.old ≡ class.now.pool }
    ensures same { units.new ≡ units.old }
    ensures effect { IfOk result (λ e. IsSoundInstruction class.now instruction.now → HasEffect class.now.pool instruction.now e) }
{
    match row_of_opcode(instruction.opcode) {
        Some(row) => effect_by(alloc, class, units, instruction, row),
        None => Ok(Effect { pops: 0, pushes: 0 }),
    }
}

/// What an instruction of a row does.
fn effect_by(
    alloc: Global,
    class: &ClassFile,
    units: &mut PoolUnits<'_>,
    instruction: &Instruction,
    row: &Row,
) -> Result<Effect, AllocError>
    requires units { units.old ≡ class.now.pool }
    requires row { row_of instruction.now.opcode ≡ Some (row_view row.now) }
    ensures same { units.new ≡ units.old }
    ensures effect { IfOk result (λ e. IsSoundInstruction class.now instruction.now
        → IsEffectBy (row_view row.now).action class.now.pool instruction.now (row_view row.now) e) }
{
    let pool = class.pool.as_slice();
    let index = instruction.operand;
    match row.action {
        Action::LoadConstant => Ok(Effect { pops: 0, pushes: 1 }),
        Action::GetStatic => Ok(Effect {
            pops: 0,
            pushes: field_units(member_text(pool, index)),
        }),
        Action::PutStatic => Ok(Effect {
            pops: field_units(member_text(pool, index)),
            pushes: 0,
        }),
        Action::GetField => Ok(Effect {
            pops: 1,
            pushes: field_units(member_text(pool, index)),
        }),
        Action::PutField => Ok(Effect {
            pops: 1 + field_units(member_text(pool, index)),
            pushes: 0,
        }),
        Action::InvokeVirtual => call_effect(alloc, units, member_descriptor_at(pool, index), 1),
        Action::InvokeSpecial => call_effect(alloc, units, member_descriptor_at(pool, index), 1),
        Action::InvokeInterface => call_effect(alloc, units, member_descriptor_at(pool, index), 1),
        Action::InvokeStatic => call_effect(alloc, units, member_descriptor_at(pool, index), 0),
        Action::Refused => call_effect(alloc, units, site_descriptor_at(pool, index), 0),
        Action::MakeArray => Ok(array_effect(instruction, row)),
        _ => Ok(row_effect(row)),
    }
}

/// What a call of a method does whose descriptor is the text at an index, and whose receiver takes so many units.
fn call_effect(
    alloc: Global,
    units: &mut PoolUnits<'_>,
    descriptor: Option<u16>,
    receiver: u16,
) -> Result<Effect, AllocError>
    requires { receiver ≤ 1 }
    ensures same { units.new ≡ units.old }
    ensures effect { IfOk result (IsCallAt units.old descriptor receiver) }
{
    let Some(descriptor) = descriptor else {
        return Ok(Effect {
            pops: receiver,
            pushes: 0,
        });
    };
    let units = units.at(alloc, descriptor)?;
    Ok(Effect {
        pops: receiver + units.parameters,
        pushes: units.results,
    })
}

/// What an instruction of a row does that makes an array.
fn array_effect(instruction: &Instruction, row: &Row) -> Effect
    requires pops { length row.now.pops.now ≤ 255 }
    requires pushes { length row.now.pushes.now ≤ 255 }
    ensures pops { result.pops ≡ length (array_row (row_view row.now).operands (with_row instruction.now (row_view row.now))).pops }
    ensures pushes { result.pushes ≡ length (array_row (row_view row.now).operands (with_row instruction.now (row_view row.now))).pushes }
{
    match row.operands {
        Operands::Pool2AndDimensions => Effect {
            pops: u16::from(instruction.dimensions),
            pushes: row.pushes.len() as u16,
        },
        _ => row_effect(row),
    }
}

/// What an instruction does that pops and pushes the units of its row.
fn row_effect(row: &Row) -> Effect
    requires pops { length row.now.pops.now ≤ 255 }
    requires pushes { length row.now.pushes.now ≤ 255 }
    ensures pops { result.pops ≡ length (row_view row.now).pops }
    ensures pushes { result.pushes ≡ length (row_view row.now).pushes }
{
    Effect {
        pops: row.pops.len() as u16,
        pushes: row.pushes.len() as u16,
    }
}
