//! Places: what may refer to objects, by the numbers of their sites.

use jvm_model::{FieldNo, MethodNo, SiteNo};
use slot_names::Variable;

/// The number of a place.
#[derive(Clone, Copy, Debug, PartialEq, Eq, Hash)]
pub struct PlaceNo(pub u32);

/// What may refer to objects: a variable; a field, or the elements, of the objects of a site; a static field; what the library keeps; what a
/// method returns, and what it throws.
#[derive(Clone, Copy, Debug, PartialEq, Eq, Hash)]
pub enum Place {
    Variable(Variable),
    Field(SiteNo, FieldNo),
    Elements(SiteNo),
    Static(FieldNo),
    Kept,
    Returned(MethodNo),
    Thrown(MethodNo),
}
