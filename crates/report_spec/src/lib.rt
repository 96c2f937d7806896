//! What a report says, as definitions: the allocation sites that a property is about, which of them a stage proves safe, the verdict of
//! each by the stages that are asked for, and the lines. It runs nothing. The layers above build the report (`IsReport`), or tell what is
//! true of it.
//! The law `one_verdict` says that a site has one verdict; `safe_stays`, that more stages take no `safe` back.
//! Begin with specs/Tracked.antt, Verdicts.antt and Reports.antt.
#![tactic(auto)]

mod laws;

pub use laws::{one_verdict, safe_stays};
