//! Texts and members by number.

mod member_index;
mod text_index;
