//! The lines of a certificate, as typed values.

use jvm_model::{Bytes, Event, FieldNo, MethodNo, Site};
use op_model::Spot;
use slot_names::Variable;
use stage_facts::PlainFact;

/// What may hold references: a variable; a field, or the elements, of the objects of a site; a static field; what the library keeps; what a
/// method returns, and what it throws.
#[derive(Drop)]
pub enum Holder {
    Variable(Variable),
    Field(Site, FieldNo),
    Elements(Site),
    Static(FieldNo),
    Kept,
    Returned(MethodNo),
    Thrown(MethodNo),
}

/// A path edge, with the number of the stage and the site whose edge it is.
#[derive(Drop)]
pub struct ListedEdge {
    pub stage: u8,
    pub site: Site,
    /// `None` for the start of the program.
    pub method: Option<MethodNo>,
    /// What holds where the method is entered.
    pub entry: PlainFact,
    pub spot: Spot,
    /// What holds at the spot.
    pub fact: PlainFact,
}

/// A line. States are known by their numbers, which are counted from 0 in the order of their lines.
#[derive(Drop)]
pub enum Line {
    /// The version of the format.
    Version,
    /// The class of the automaton's objects, by its name.
    Class(Bytes),
    /// A state, by its name.
    State(Bytes),
    /// The state in which an object is made.
    Initial(u8),
    /// The state that no object may reach.
    Error(u8),
    /// A call that moves the automaton.
    Event(Event),
    /// The method with which the program starts.
    Entry(MethodNo),
    /// How many fields a path may follow.
    Depth(u8),
    /// A method that may run.
    Reached(MethodNo),
    /// An object of the site may be held there.
    PointsTo { holder: Holder, site: Site },
    /// The method may write the field.
    Modifies { method: MethodNo, field: FieldNo },
    /// The stage shows that no object of the site reaches the error state.
    Claim { stage: u8, site: Site },
    /// A path edge.
    PathEdge(ListedEdge),
    /// The last line.
    End,
}
