//! The words of a run: which options they give, and what these ask for. The run calls `read_words`, which answers a `Request`, or what is
//! wrong with the words (`UsageFault`).
//! specs/Command.antt has the command, as the crate `clap` takes it; specs/Requests.antt what its words ask for. Begin there, and with
//! src/request.rt; command.rt has the options, numbers.rt their ranges.
#![tactic(auto)]

mod command;
mod fault;
mod numbers;
mod request;

pub use fault::{NumberOption, UsageFailure, UsageFault};
pub use request::{Mode, Request, read_words};
