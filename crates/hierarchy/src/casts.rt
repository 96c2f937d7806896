//! What an object of a class or an array may be cast to (JVMS 5.5, 6.5.checkcast).

ghost use Rattle.std.specs.Prelude.{◌↔◌, IsTrue};
ghost use Rattle.jvm_model.specs.Subtypes.{Fits};
ghost use Rattle.hierarchy.specs.Casts.{IsClassBelow, IsSameArray};

use crate::classes::{find_class, is_subtype};
use crate::elements::{element, is_array, is_array_super};
use program_model::program::Program;

/// Whether an object of the class or the array of the lower name may be cast to the type of the upper name (JVMS 5.5,
/// 6.5.checkcast). It goes from arrays to their elements until the lower name is that of no array, with a step of constant time for
/// each dimension, and compares the whole names once. A name that is neither that of an array nor of a class of the program fits
/// nothing.
pub fn fits(program: &Program, upper: &[u8], lower: &[u8]) -> bool
    ensures { IsTrue result ↔ Fits program.now upper.now lower.now }
{
    program.well_formed();
    if is_same_array(upper, lower) {
        return true;
    }
    let mut over = upper;
    let mut under = lower;
    while is_array(under) {
        if is_array_super(over) {
            return true;
        }
        let Some(upper_element) = element(over) else {
            return false;
        };
        let Some(lower_element) = element(under) else {
            return false;
        };
        over = upper_element;
        under = lower_element;
    }
    is_class_below(program, over, under)
}

/// Whether both names are that of one array.
fn is_same_array(upper: &[u8], lower: &[u8]) -> bool
    ensures { IsTrue result ↔ IsSameArray upper.now lower.now }
{
    is_array(lower) && upper == lower
}

/// Whether the lower name is that of a class of the program which is a subtype of the class of the upper name (JVMS 4.10.1.2).
fn is_class_below(program: &Program, upper: &[u8], lower: &[u8]) -> bool
    ensures { IsTrue result ↔ IsClassBelow program.now upper.now lower.now }
{
    program.well_formed();
    let Some(lower_class) = find_class(program, lower) else {
        return false;
    };
    let Some(upper_class) = find_class(program, upper) else {
        return false;
    };
    is_subtype(program, lower_class, upper_class)
}
