//! The whole run: from words and a tree of files to a status and the text that is written, line by line. The program above it calls `run`
//! and ends with the status.
//! Begin with src/verifier.rt, which has its clauses: what is answered (`told`), how it is handed out (`pieces`), that lines `safe ..` are
//! true (`sound`). files.rt reads, program.rt goes from linking to the analysis, telling.rt tells the report or the certificate, sample.rt has the run on the sample, answer.rt what is said
//! where a check fails, and output.rt writes.
#![tactic(auto)]

mod answer;
mod files;
mod laws;
mod output;
mod program;
mod sample;
mod telling;
mod verifier;

pub use laws::text_is_cut;
pub use run_spec::Status;
pub use verifier::run;
