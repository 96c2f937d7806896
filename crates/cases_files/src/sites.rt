//! Allocation sites as texts.

use crate::names::Names;
use jvm_model::{MethodNo, SiteKind};
use std::alloc::AllocError;

/// Writes an allocation site, in brackets: its kind, its method or `-`, its offset and its class.
pub fn write_site(
    text: &mut String,
    names: &Names,
    kind: SiteKind,
    method: Option<MethodNo>,
    offset: u32,
    class: &str,
) -> Result<(), AllocError> {
    let kind = match kind {
        SiteKind::Boot => "Boot",
        SiteKind::New => "New",
        SiteKind::Result => "Result",
        SiteKind::Thrown => "Thrown",
    };
    let method = match method {
        Some(method) => names.method(method),
        None => "-",
    };
    write!(text, "[{kind} {method} {offset} {class}]")
}
