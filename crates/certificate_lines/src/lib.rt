//! The lines of a certificate, in which a run states what it found so that another can check it: each line as a typed value, as a text, and in
//! the order of lines. What writes a certificate calls `push_line`, and `line_length` to know the length of a text before it is made; what
//! reads one compares lines by `compare_lines`, and what looks for an edge compares its parts, by `compare_methods`, `compare_facts` and
//! `compare_spots`. Begin with specs/LineTexts.antt for the texts, and with specs/LineOrder.antt for the order.
#![tactic(auto)]

mod fact_lengths;
mod fact_order;
mod holder_key;
pub mod laws;
mod line;
mod line_key;
mod line_lengths;
mod line_order;
mod line_text;
mod site_order;
mod word_lengths;

pub use fact_order::{compare_facts, compare_spots};
pub use line::{Holder, Line, ListedEdge};
pub use line_lengths::line_length;
pub use line_order::{compare_lines, kind_of};
pub use line_text::push_line;
pub use site_order::{compare_methods, compare_sites};
