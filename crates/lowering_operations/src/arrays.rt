//! The arrays that an instruction makes (JVMS 6.5.newarray, 6.5.anewarray, 6.5.multianewarray).

ghost use Rattle.std.specs.Prelude.{◌≡◌, ◌<◌, ◌≤◌, ◌^◌, [], ◌∷◌, map, drop, IfOk, Some};
ghost use Rattle.jvm_model.specs.RowViews.{row_view};
ghost use Rattle.jvm_model.specs.Subtypes.{array_of, reference_descriptor};
ghost use Rattle.jvm_model.specs.Table.{row_of, make_array};
ghost use Rattle.machine_bytecode.specs.Machine.{primitive_array, nested_arrays};
ghost use Rattle.flow_graph.specs.Reading.{IsSoundInstruction};
ghost use Rattle.lowering_operations.specs.ByAction.{site_at, HasRow, IsOperation, IsArrayOperation};
ghost use Rattle.lowering_operations.specs.Orders.{IsOrdered};

use crate::placement::Placement;
use crate::sites::{class_at, new_site};
use jvm_model::Sequence;
use jvm_model::grammar::is_array;
use jvm_model::opcode::Operands;
use jvm_model::site::Site;
use op_model::Op;
use std::alloc::{AllocError, Global};

/// The operation that makes arrays, each of which holds the next ones.
pub(crate) fn make_array(alloc: Global, at: Placement<'_>) -> Result<Op, AllocError>
    requires sound { IsSoundInstruction at.class.now at.instruction.now }
    requires row { row_of at.instruction.now.opcode ≡ Some (row_view at.row.now) }
    requires action { (row_view at.row.now).action ≡ make_array }
    requires units { HasRow at }
    requires top { at.top < 2 ^ 18 }
    requires operand { at.instruction.now.operand < 2 ^ 16 }
    ensures operation { IfOk result (IsOperation at.entry) }
    ensures order { IfOk result (IsOrdered at.entry) }
{
    match at.row.operands {
        Operands::TypeCode => one_array(alloc, at, primitive_array(at.instruction.operand)),
        Operands::Pool2AndDimensions => {
            let array = class_at(at.class, at.instruction.operand);
            nested(alloc, at, array, at.instruction.dimensions)
        }
        _ => {
            let element = class_at(at.class, at.instruction.operand);
            let array = array_of(alloc, element)?;
            one_array(alloc, at, &array)
        }
    }
}

/// The operation that makes one array, whose size stands at the top.
fn one_array(alloc: Global, at: Placement<'_>, array: &[u8]) -> Result<Op, AllocError>
    requires { 0 < at.top }
    ensures { IfOk result (IsArrayOperation at.entry 1 (array.now ∷ [])) }
{
    let mut sites = Vec::new(alloc);
    sites.push(new_site(alloc, at, array)?)?;
    Ok(Op::NewArray {
        sites: Sequence::from_vec(sites),
        target: at.top - 1,
    })
}

/// The operation that makes arrays of so many dimensions, whose sizes stand at the top.
fn nested(alloc: Global, at: Placement<'_>, array: &[u8], dimensions: u8) -> Result<Op, AllocError>
    requires { dimensions ≤ at.top }
    ensures { IfOk result (IsArrayOperation at.entry dimensions (nested_arrays dimensions array.now)) }
{
    let sites = nested_sites(alloc, at, array, dimensions)?;
    Ok(Op::NewArray {
        sites: Sequence::from_vec(sites),
        target: at.top - u32::from(dimensions),
    })
}

/// The sites of an array, of its elements and so on: so many.
fn nested_sites(
    alloc: Global,
    at: Placement<'_>,
    array: &[u8],
    count: u8,
) -> Result<Vec<Site>, AllocError>
    ensures { IfOk result (λ sites. sites.items ≡ map (site_at at.entry) (nested_arrays count array.now)) }
{
    let mut sites = Vec::new(alloc);
    let mut rest = array;
    for _ in 0..count {
        sites.push(new_site(alloc, at, rest)?)?;
        rest = element_of(rest);
    }
    Ok(sites)
}

/// The elements of an array, by their descriptor (JVMS 4.3.2).
fn element_of(array: &[u8]) -> &[u8]
    ensures { result.now ≡ drop 1 array.now }
{
    match array {
        [_, element @ ..] => element,
        [] => array,
    }
}

/// The array whose elements are of the class, the interface or the array.
fn array_of(alloc: Global, name: &[u8]) -> Result<Vec<u8>, AllocError>
    ensures { IfOk result (λ array. array.items ≡ array_of name.now) }
{
    let element = reference_descriptor(alloc, name)?;
    let mut array = Vec::new(alloc);
    array.push(b'[')?;
    array.extend_from_slice(&element)?;
    Ok(array)
}

/// The descriptor of a class, an interface or an array (JVMS 4.3.2, 4.4.1).
fn reference_descriptor(alloc: Global, name: &[u8]) -> Result<Vec<u8>, AllocError>
    ensures { IfOk result (λ text. text.items ≡ reference_descriptor name.now) }
{
    if is_array(name) {
        return Vec::from_slice(alloc, name);
    }
    let mut text = Vec::new(alloc);
    text.push(b'L')?;
    text.extend_from_slice(name)?;
    text.push(b';')?;
    Ok(text)
}

/// The array whose elements are of the primitive type of a code (JVMS 6.5.newarray).
fn primitive_array(code: u32) -> &'static [u8]
    ensures { result.now ≡ primitive_array code }
{
    match code {
        0..=4 => b"[Z",
        5 => b"[C",
        6 => b"[F",
        7 => b"[D",
        8 => b"[B",
        9 => b"[S",
        10 => b"[I",
        11 => b"[J",
        _ => b"",
    }
}
