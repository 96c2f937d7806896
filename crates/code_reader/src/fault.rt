//! What is wrong with an instruction of a code array (JVMS 4.9.1, 6.5): its targets, its local variables, that it is of
//! a subroutine, or its index of the constant pool.

ghost use Rattle.std.specs.Prelude.{◌≡◌, option_map, Some};
ghost use Rattle.std.specs.List.{list_all, list_any};
ghost use Rattle.jvm_model.specs.InstructionUses.{names_local, local_units, locals_fit, is_subroutine, pool_target, target_kinds, has_shape, leads_there, leads_right};
ghost use Rattle.jvm_model.specs.RowViews.{row_view, operands_view, target_view, flow_view};
ghost use Rattle.code_reader.specs.Division.{is_target, has_locals, fault_of, first_fault};
ghost use Rattle.code_reader.specs.Divided.{KnowsStarts};

use crate::decode::Decoded;
use crate::division::Division;
use crate::spot::Spot;
use jvm_model::grammar::is_array;
use jvm_model::lookup::{class_name_at, leads_to};
use jvm_model::opcode::{Flow, Operands, PoolTarget, Row};
use jvm_model::{EntryKind, PoolEntry, Reason};

/// The local variables of a method: their limit, and how many its parameters take, the receiver among them.
#[derive(Clone, Copy)]
pub(crate) struct Locals {
    pub(crate) limit: u16,
    pub(crate) parameters: u16,
}

/// The first instruction with which something is wrong, and what; and else why the division ended early.
pub(crate) fn first_fault(
    pool: &[PoolEntry],
    locals: Locals,
    division: &Division,
) -> Option<(u32, Reason)>
    requires { KnowsStarts division.now }
    ensures { result ≡ first_fault (fault_of pool.now (record { limit = locals.limit; parameters = locals.parameters }) division.now.spots.items division.now.stop) division.now.stop division.now.spots.items }
{
    for spot in &division.spots {
        if let Some(reason) = fault_of(pool, locals, division, spot) {
            return Some((spot.offset, reason));
        }
    }
    division.stop
}

/// What is wrong with an instruction.
fn fault_of(pool: &[PoolEntry], locals: Locals, division: &Division, spot: &Spot) -> Option<Reason>
    requires { KnowsStarts division.now }
    ensures { result ≡ fault_of pool.now (record { limit = locals.limit; parameters = locals.parameters }) division.now.spots.items division.now.stop spot.now }
{
    if !are_targets(division, &spot.decoded.targets) {
        return Some(Reason::BadTarget);
    }
    if !has_locals(locals, spot) {
        return Some(Reason::BadLocal);
    }
    if is_subroutine(spot.decoded.row.flow) {
        return Some(Reason::Subroutine);
    }
    if !leads_right(pool, &spot.decoded) {
        return Some(Reason::BadIndex);
    }
    None
}

/// Whether branches may lead to each of these places.
fn are_targets(division: &Division, targets: &[Option<u32>]) -> bool
    requires { KnowsStarts division.now }
    ensures { result ≡ list_all (is_target division.now.spots.items division.now.stop) targets.now }
{
    for target in targets {
        if !division.is_target(*target) {
            return false;
        }
    }
    true
}

/// Whether the local variables of an instruction are there; at the first one those of the parameters too.
fn has_locals(locals: Locals, spot: &Spot) -> bool
    ensures { result ≡ has_locals (record { limit = locals.limit; parameters = locals.parameters }) spot.now }
{
    locals_fit(locals.limit, &spot.decoded)
        && (spot.offset != 0 || locals.parameters <= locals.limit)
}

/// Whether the local variables of an instruction are below a limit (JVMS 4.9.1).
fn locals_fit(limit: u16, decoded: &Decoded) -> bool
    ensures { result ≡ locals_fit limit decoded.now }
{
    if !names_local(decoded.row.operands) {
        return true;
    }
    match limit.checked_sub(decoded.operand) {
        Some(room) => local_units(decoded.row) <= usize::from(room),
        None => false,
    }
}

/// Whether an instruction of a row names a local variable.
fn names_local(operands: Operands) -> bool
    ensures { result ≡ names_local (operands_view operands) }
{
    matches!(
        operands,
        Operands::Implied(_) | Operands::Local1 | Operands::LocalAndValue
    )
}

/// How many local variables an instruction uses from the one on that it names (JVMS 2.6.1).
fn local_units(row: &Row) -> usize
    ensures { result ≡ local_units (row_view row.now) }
{
    let units = row.pushes.len() + row.stores.len();
    if units == 0 { 1 } else { units }
}

/// Whether an instruction is one of a subroutine.
fn is_subroutine(flow: Flow) -> bool
    ensures { result ≡ is_subroutine (flow_view flow) }
{
    matches!(flow, Flow::Subroutine)
}

/// Whether the index of an instruction, if it has one, leads to what it should (JVMS 4.9.1).
fn leads_right(pool: &[PoolEntry], decoded: &Decoded) -> bool
    ensures { result ≡ leads_right pool.now decoded.now }
{
    match pool_target(decoded.row.operands) {
        Some(target) => leads_there(pool, decoded.operand, target),
        None => true,
    }
}

/// What the index of an instruction has to lead to, if it has one.
fn pool_target(operands: Operands) -> Option<PoolTarget>
    ensures { option_map target_view result ≡ pool_target (operands_view operands) }
{
    match operands {
        Operands::Pool1(target) => Some(target),
        Operands::Pool2(target) => Some(target),
        Operands::Pool2AndCount => Some(PoolTarget::InterfaceMethod),
        Operands::Pool2AndZeros => Some(PoolTarget::CallSite),
        Operands::Pool2AndDimensions => Some(PoolTarget::Array),
        _ => None,
    }
}

/// Whether an index leads to an entry of the right kind, and of the right shape if it is a class.
fn leads_there(pool: &[PoolEntry], index: u16, target: PoolTarget) -> bool
    ensures { result ≡ leads_there pool.now index (target_view target) }
{
    if !leads_to(pool, target_kinds(target), index) {
        return false;
    }
    match class_name_at(pool, index) {
        Some(name) => has_shape(name, target),
        None => true,
    }
}

/// The kinds of entries that an index of an instruction may lead to.
fn target_kinds(target: PoolTarget) -> &'static [EntryKind]
    ensures { result.now ≡ target_kinds (target_view target) }
{
    match target {
        PoolTarget::Loadable => &[
            EntryKind::Integer,
            EntryKind::Float,
            EntryKind::Str,
            EntryKind::Class,
            EntryKind::MethodHandle,
            EntryKind::MethodType,
        ],
        PoolTarget::WideNumber => &[EntryKind::Long, EntryKind::Double],
        PoolTarget::Field => &[EntryKind::Field],
        PoolTarget::ClassMethod => &[EntryKind::Method],
        PoolTarget::AnyMethod => &[EntryKind::Method, EntryKind::InterfaceMethod],
        PoolTarget::InterfaceMethod => &[EntryKind::InterfaceMethod],
        PoolTarget::CallSite => &[EntryKind::InvokeDynamic],
        PoolTarget::AnyClass | PoolTarget::NoArray | PoolTarget::Array => &[EntryKind::Class],
    }
}

/// Whether the name of a class is that of an array, or not, as it should.
fn has_shape(name: &[u8], target: PoolTarget) -> bool
    ensures { result ≡ has_shape (Some name.now) (target_view target) }
{
    match target {
        PoolTarget::NoArray => !is_array(name),
        PoolTarget::Array => is_array(name),
        _ => true,
    }
}
