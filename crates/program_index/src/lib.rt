//! Texts and members by number, sets of classes, and the order of classes by their supertypes. Classes are plain `u32` here; where other
//! numbers stand beside it, that of a class is a `ClassNo`.
//! The program's model calls `upward_order`, `above_lists` and `MemberIndex`; linking and the points-to solver number texts by `TextIndex`.
//! Begin with src/text_index.rt and src/order.rt.
#![tactic(auto)]

pub mod above;
pub mod class_set;
pub mod first_places;
pub mod index_failure;
pub mod member_index;
pub mod member_key;
pub mod numbered_key;
pub mod order;
pub mod parents;
pub mod text_index;
pub mod texts;
