//! The machine that runs bytecode, as the JVM Specification, SE 8 (JVMS 2.6, 2.10, 5.5, 6.5) defines it: states, steps and executions of a
//! linked program, and the events that move the automaton of a property. The crate has definitions, in specs/, and laws of them; it runs
//! nothing.
//! Clauses of the layers above say what no execution does, by `IsExecution` and `Errs`.
//! Begin with specs/States.antt; then Machine.antt, which ends with `Step`, Events.antt and Executions.antt.
#![tactic(auto)]

pub mod laws;
