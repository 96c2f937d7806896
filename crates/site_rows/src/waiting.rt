//! The places that wait.

ghost use Rattle.std.specs.Prelude.{ℕ, IsTrue, Contains, OnOk, MatchOption};
ghost use Rattle.site_rows.specs.Rows.{AreIdle, AreWaiting, IsNextPlace};

use crate::places::has_fresh;
use crate::row::SiteRow;
use std::alloc::AllocError;
use std::collections::VecDeque;

/// Puts a place behind those that wait, if it is to wait. It answers an error where memory runs out.
pub(crate) fn wait_if(
    waiting: &mut VecDeque<u32>,
    place: u32,
    is_to_wait: bool,
) -> Result<(), AllocError>
    ensures kept { OnOk result ((q : ℕ) → Contains waiting.old.items q → Contains waiting.new.items q) }
    ensures there { OnOk result (IsTrue is_to_wait → Contains waiting.new.items place) }
{
    if is_to_wait {
        waiting.push_back(place)?;
    }
    Ok(())
}

/// The next place with fresh sites, which waits no longer.
pub(crate) fn next_place(rows: &Vec<SiteRow>, waiting: &mut VecDeque<u32>) -> Option<u32>
    requires { AreWaiting rows.now.items waiting.old.items }
    ensures { MatchOption result (AreIdle rows.now.items) (IsNextPlace rows.now.items waiting.new.items) }
{
    loop {
        let Some(place) = waiting.pop_front() else {
            return None;
        };
        if has_fresh(rows, place) {
            return Some(place);
        }
    }
}
