//! What becomes of the roots of paths where a method is left.

ghost use Rattle.std.specs.Prelude.{◌≡◌};
ghost use Rattle.stage_transfer.specs.Calls.{is_handed_on, is_kept, is_slot, written_on};
ghost use Rattle.stage_transfer.specs.Settings.{among};
ghost use Rattle.stage_views.specs.Views.{entering_of};

use crate::path_test::PathTest;
use crate::units::is_passed;
use access_paths::{Path, Root};
use stage_views::{Entering, is_written_by};

/// Whether an exit hands a root on.
fn is_handed_on(by: Entering<'_>, root: Root) -> bool
    ensures { result ≡ is_handed_on (entering_of by.entry) root }
{
    match root {
        Root::Slot(_) => false,
        Root::Static(_) => true,
        Root::Returned => is_call(by),
        Root::Thrown => is_call(by),
    }
}

/// Whether a method is called.
fn is_call(by: Entering<'_>) -> bool
    ensures returned { result ≡ is_handed_on (entering_of by.entry) Root.Returned }
    ensures thrown { result ≡ is_handed_on (entering_of by.entry) Root.Thrown }
{
    match by {
        Entering::Call(_) => true,
        Entering::Trigger => false,
    }
}

/// Whether a root of the caller is as it was.
pub(crate) fn is_kept(by: Entering<'_>, root: Root) -> bool
    ensures { result ≡ is_kept (entering_of by.entry) root }
{
    match root {
        Root::Slot(slot) => !is_passed(by, slot),
        Root::Static(_) => false,
        Root::Returned => false,
        Root::Thrown => false,
    }
}

/// Whether a root is a slot.
fn is_slot_root(root: Root) -> bool
    ensures { result ≡ is_slot root }
{
    match root {
        Root::Slot(_) => true,
        Root::Static(_) => false,
        Root::Returned => false,
        Root::Thrown => false,
    }
}

/// Whether the node writes a slot: a call its arguments and its result.
pub(crate) fn is_written(by: Entering<'_>, slot: u32) -> bool
    ensures { result ≡ among (written_on (entering_of by.entry)) slot }
{
    match by {
        Entering::Call(call) => is_written_by(call, slot),
        Entering::Trigger => false,
    }
}

/// Whether a path of the exit is handed on.
#[derive(Clone, Copy)]
pub(crate) struct HandedOn<'c> {
    pub(crate) by: Entering<'c>,
}

impl PathTest for HandedOn<'_> {
    ghost use Rattle.stage_views.specs.Views.{entering_of};
    ghost use Rattle.stage_calls.specs.Testing.{is_path_handed_on, AreAlike};

    ghost computes = { λ x p. AreAlike p (is_path_handed_on (entering_of x.by)) };

    fn holds(&self, path: &Path) -> bool {
        is_handed_on(self.by, path.root())
    }
}

/// Whether a path of the exit is not handed on, though it begins at no slot.
#[derive(Clone, Copy)]
pub(crate) struct Dropped<'c> {
    pub(crate) by: Entering<'c>,
}

impl PathTest for Dropped<'_> {
    ghost use Rattle.stage_transfer.specs.Calls.{is_dropped};
    ghost use Rattle.stage_views.specs.Views.{entering_of};
    ghost use Rattle.stage_calls.specs.Testing.{AreAlike};

    ghost computes = { λ x p. AreAlike p (is_dropped (entering_of x.by)) };

    fn holds(&self, path: &Path) -> bool {
        !is_handed_on(self.by, path.root()) && !is_slot_root(path.root())
    }
}
