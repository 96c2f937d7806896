//! Path edges as lines of text: one line for each edge, with its stage and its site.
//! What cites the edges of a stage calls `push_edge_line`, and speaks of `edge_line`. Begin with specs/EdgeLines.antt.
#![tactic(auto)]

mod edge_line;
mod fact_words;
mod path_texts;

pub use edge_line::{EdgeText, push_edge_line, push_site};
