//! Allocation sites.

use crate::number::MethodNo;
use crate::sequence::Bytes;

/// What allocates at a site.
#[derive(Clone, Copy, Debug, PartialEq, Eq, PartialOrd, Ord, Hash)]
pub enum SiteKind {
    /// The start of the program.
    Boot,
    /// An instruction that makes an object or an array.
    New,
    /// A library method, whose result is a new object.
    Result,
    /// An instruction, an initialisation or a library method that throws a new object.
    Thrown,
}

/// An allocation site. `method` is `None` for the start of the program, and `offset` is counted from
/// the first byte of the method's code.
#[derive(Debug, Drop)]
pub struct Site {
    pub kind: SiteKind,
    pub method: Option<MethodNo>,
    pub offset: u32,
    pub class: Bytes,
}
