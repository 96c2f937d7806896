//! The line of a certificate that stands at the front of bytes, as a guess: `guess_line` gives something for any bytes, and the right line
//! where they begin with one (`lines_are_guessed`). What reads a certificate writes the guess again and compares, so that nothing else has to
//! be known of it. Begin with specs/Guess.antt.
#![tactic(auto)]

mod facts;
mod holders;
pub mod laws;
mod line_guess;
mod names;
mod numbers;
mod sites;

pub use line_guess::guess_line;
