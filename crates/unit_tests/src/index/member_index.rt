//! Members that are added, and the numbers at which they are found.

use crate::seen::see;
use jvm_model::ClassNo;
use jvm_model::lookup::Signature;
use program_index::index_failure::IndexFailure;
use program_index::member_index::MemberIndex;
use program_index::member_key::MemberKey;
use std::process::Abort;
use std::test::Fail;

/// The key of a method `run` of a class.
fn run_of(class: u32) -> MemberKey<'static> {
    MemberKey {
        class: ClassNo(class),
        signature: Signature {
            name: b"run",
            descriptor: b"()V",
        },
    }
}

/// Adds the members of two classes, of which one has a member twice.
fn add_members(index: &mut MemberIndex) -> Result<(), IndexFailure> {
    for class in [0, 1, 1] {
        index.push(run_of(class))?;
    }
    Ok(())
}

/// Looks for members by their keys.
fn look_at_members(rt: &impl Abort, index: &MemberIndex) {
    see(rt, (index.is_empty(), index.len()), (false, 3));
    let found = [index.first(run_of(1)), index.first(run_of(2))];
    see(rt, found, [Some(1), None]);
}

#[test]
fn the_first_of_equal_members_is_found(rt: HostRuntime) -> Result<(), Fail> {
    let mut index = MemberIndex::new(rt.alloc());
    add_members(&mut index)?;
    look_at_members(&rt, &index);
    Ok(())
}
