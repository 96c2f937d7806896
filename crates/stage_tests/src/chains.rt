//! Lists by number, which are walked while they grow.

ghost use Rattle.std.specs.Prelude.{OnOk};
ghost use Rattle.chained_lists.specs.Entries.{IsFront};

use chained_lists::Chains;
use std::alloc::AllocError;
use std::process::Abort;
use std::test::Fail;

/// Adds the next number to a list, and this one to the list beside it, up to 3.
fn add_next(chains: &mut Chains, number: u32, value: u32) -> Result<(), AllocError>
    ensures { OnOk result (IsFront chains.old chains.new) }
{
    if value >= 3 {
        return Ok(());
    }
    chains.add(number, value + 1)?;
    chains.add(number / 2, value)?;
    Ok(())
}

/// The values of a list, to which some are added while it is walked: eight at most.
fn walked(chains: &mut Chains, number: u32, mut values: Vec<u32>) -> Result<Vec<u32>, AllocError> {
    let mut last = None;
    for _ in 0..8 {
        let Some(place) = chains.after(number, last) else {
            return Ok(values);
        };
        let value = chains.value(place);
        values.push(value)?;
        add_next(chains, number, value)?;
        last = Some(place);
    }
    Ok(values)
}

/// The values of a list.
fn listed(chains: &Chains, number: u32, mut values: Vec<u32>) -> Result<Vec<u32>, AllocError> {
    let mut last = None;
    while let Some(place) = chains.after(number, last) {
        values.push(chains.value(place))?;
        last = Some(place);
    }
    Ok(values)
}

#[test]
fn lists_are_walked_while_they_grow(rt: HostRuntime) -> Result<(), Fail> {
    let alloc = rt.alloc();
    let mut chains = Chains::new(alloc);
    chains.add(7, 0)?;
    let values = walked(&mut chains, 7, Vec::new(alloc))?;
    assert_eq!(rt; values.as_slice(), [0, 1, 2, 3].as_slice());
    let beside = listed(&chains, 3, Vec::new(alloc))?;
    assert_eq!(rt; beside.as_slice(), [0, 1, 2].as_slice());
    assert!(rt; chains.has(7, 3) && !chains.has(3, 3));
    Ok(())
}
