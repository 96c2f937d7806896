//! Operations as text.

use cases_files::{Names, shown, write_site as write_place};
use jvm_model::Site;
use op_model::{Call, CallKind, Move, Op, Source};
use std::alloc::AllocError;

/// An operation with all that it names.
pub fn write_operation(text: &mut String, names: &Names, op: &Op) -> Result<(), AllocError> {
    match op {
        Op::Assign(moves) => write_moves(text, moves.as_slice()),
        Op::Load { .. }
        | Op::Store { .. }
        | Op::LoadElement { .. }
        | Op::StoreElement { .. }
        | Op::LoadStatic { .. }
        | Op::StoreStatic { .. } => write_access(text, names, op),
        Op::New { site, target } => {
            text.push_str("new")?;
            write_site(text, names, site)?;
            write!(text, " target {target}")
        }
        Op::NewArray { sites, target } => {
            text.push_str("new array")?;
            write_sites(text, names, sites.as_slice())?;
            write!(text, " target {target}")
        }
        Op::Constant { site, target } => {
            text.push_str("constant")?;
            write_site(text, names, site)?;
            write!(text, " target {target}")
        }
        Op::Call(call) => write_call(text, names, call),
        Op::Return { value: Some(value) } => write!(text, "return {value}"),
        Op::Return { value: None } => text.push_str("return"),
        Op::Throw { value } => write!(text, "throw {value}"),
        Op::Cast { class, slot } => {
            let class = shown(class.as_slice());
            write!(text, "cast {class} slot {slot}")
        }
        Op::Probe { slot } => write!(text, "probe {slot}"),
    }
}

/// Moves, each as its target, a sign and its source.
fn write_moves(text: &mut String, moves: &[Move]) -> Result<(), AllocError> {
    text.push_str("moves")?;
    for Move { source, target } in moves {
        match source {
            Source::Slot(slot) => write!(text, " {target}<{slot}")?,
            Source::Null => write!(text, " {target}<null")?,
            Source::Primitive => write!(text, " {target}<prim")?,
        }
    }
    Ok(())
}

/// A read or a write of a field or an element.
fn write_access(text: &mut String, names: &Names, op: &Op) -> Result<(), AllocError> {
    match op {
        Op::Load {
            object,
            field,
            target,
        } => {
            let field = names.field(*field);
            write!(text, "load {field} object {object} target {target}")
        }
        Op::Store {
            object,
            field,
            value,
        } => {
            let field = names.field(*field);
            write!(text, "store {field} object {object} value {value}")
        }
        Op::LoadElement { array, target } => {
            write!(text, "load element array {array} target {target}")
        }
        Op::StoreElement { array, value } => {
            write!(text, "store element array {array} value {value}")
        }
        Op::LoadStatic { field, target } => {
            let field = names.field(*field);
            write!(text, "load static {field} target {target}")
        }
        Op::StoreStatic { field, value } => {
            let field = names.field(*field);
            write!(text, "store static {field} value {value}")
        }
        _ => Ok(()),
    }
}

/// Allocation sites.
fn write_sites(text: &mut String, names: &Names, sites: &[Site]) -> Result<(), AllocError> {
    for site in sites {
        write_site(text, names, site)?;
    }
    Ok(())
}

/// An allocation site, behind a space.
fn write_site(text: &mut String, names: &Names, site: &Site) -> Result<(), AllocError> {
    let class = shown(site.class.as_slice());
    text.push_str(" ")?;
    write_place(text, names, site.kind, site.method, site.offset, class)
}

/// A call: its kind, its methods, what the instruction names, its arguments and its result.
fn write_call(text: &mut String, names: &Names, call: &Call) -> Result<(), AllocError> {
    let kind = match call.kind {
        CallKind::Virtual => "virtual",
        CallKind::Special => "special",
        CallKind::Static => "static",
        CallKind::Interface => "interface",
    };
    let resolved = names.method(call.resolved);
    write!(text, "call {kind} {resolved}")?;
    if let Some(chosen) = call.chosen {
        let chosen = names.method(chosen);
        write!(text, " chosen {chosen}")?;
    }
    let name = shown(call.name.as_slice());
    let descriptor = shown(call.descriptor.as_slice());
    write!(text, " named {name}{descriptor}")?;
    write_arguments(text, call.arguments.as_slice())?;
    match call.result {
        Some(result) => write!(text, " result {result}"),
        None => Ok(()),
    }
}

/// The arguments of a call.
fn write_arguments(text: &mut String, arguments: &[Option<u32>]) -> Result<(), AllocError> {
    if !arguments.is_empty() {
        text.push_str(" args")?;
    }
    for argument in arguments {
        match argument {
            Some(slot) => write!(text, " {slot}")?,
            None => text.push_str(" .")?,
        }
    }
    Ok(())
}
