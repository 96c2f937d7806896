//! Where the ways out of a node lead, besides its successors.

use jvm_model::MethodNo;

/// A method of a class file that a node may enter, and where what it throws goes at the node: to the handler that begins at an offset of the
/// code, or out of the method.
#[derive(Drop)]
pub struct EnteredMethod {
    pub method: MethodNo,
    pub landings: Vec<Option<u32>>,
}

/// What a described method gives.
#[derive(Clone, Copy)]
pub enum GivenResult<'p> {
    /// An argument, by its slot.
    Argument(u32),
    /// A new object of a class.
    New(&'p [u8]),
    /// Any other value.
    Other,
}

/// A described method that a call may go to: the slots of the arguments that it keeps, what it gives, and where what it throws goes.
#[derive(Drop)]
pub struct DescribedTarget<'p> {
    pub kept: Vec<u32>,
    pub results: Vec<GivenResult<'p>>,
    pub landings: Vec<Option<u32>>,
}

/// Where a node leads: where what it throws itself goes; the methods of class files that it may call; the described methods that it may call; and
/// the initialisers that it may start (JVMS 5.5).
#[derive(Drop)]
pub struct NodeWays<'p> {
    pub raised: Vec<Option<u32>>,
    pub called: Vec<EnteredMethod>,
    pub described: Vec<DescribedTarget<'p>>,
    pub started: Vec<EnteredMethod>,
}
