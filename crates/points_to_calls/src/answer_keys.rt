//! The keys of kept answers. A key names classes and methods by their numbers, so that it is small and is copied.

use jvm_model::MethodNo;
use points_to_numbers::ClassNameNo;

/// The question whether objects of the lower class fit the upper one.
#[derive(Clone, Copy, Debug, PartialEq, Eq, Hash)]
pub struct FitKey {
    pub upper: ClassNameNo,
    pub lower: ClassNameNo,
}

/// The question what a call of a resolved method selects by the class of an object; by an interface, or not.
#[derive(Clone, Copy, Debug, PartialEq, Eq, Hash)]
pub struct SelectKey {
    pub resolved: MethodNo,
    pub interface: bool,
    pub class: ClassNameNo,
}
