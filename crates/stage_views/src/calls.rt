//! How methods are entered, and what described methods give.

use op_model::Call;

/// Why a method of a class file is entered: it is called, or it is an initialiser.
#[derive(Clone, Copy)]
pub enum Entering<'c> {
    Call(&'c Call),
    Trigger,
}

/// What a described method gives.
#[derive(Clone, Copy)]
pub enum Answer {
    /// An argument, by its slot.
    Argument(u32),
    /// A new object of the site that facts are about.
    Own,
    /// A new object of another site, or any other value.
    Other,
}
