//! The failures of a link in words.

use crate::seen::see_text;
use failure::Failure;
use jvm_model::{Name, Reason};
use program_index::index_failure::TooMany;
use program_model::link_failure::{LinkFailure, refused};
use std::alloc::AllocError;

#[test]
fn a_refusal_has_a_message(rt: HostRuntime) -> Result<(), AllocError> {
    let alloc = rt.alloc();
    let file = Name::from_string(String::from_str(alloc, "p/A.class")?);
    let refusal = refused(alloc, &file, 42, Reason::Cycle);
    see_text(
        &rt,
        alloc,
        refusal,
        "p/A.class is refused at byte 42: Cycle",
    )
}

#[test]
fn too_many_members_have_a_message(rt: HostRuntime) -> Result<(), AllocError> {
    let many: LinkFailure = Failure::Cause(TooMany).widen();
    let want = "there are too many classes, methods, fields or texts to number";
    see_text(&rt, rt.alloc(), many, want)
}

#[test]
fn want_of_memory_has_a_message(rt: HostRuntime) -> Result<(), AllocError> {
    see_text(&rt, rt.alloc(), LinkFailure::OutOfMemory, "out of memory")
}
