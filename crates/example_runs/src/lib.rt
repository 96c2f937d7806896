//! Runs that are written out, words and files byte for byte, and laws on the executions of their programs. The crate has laws alone; it runs
//! nothing. The runs stand in cases/, too, where their reports are:
//!
//! ```text
//! case                                 report     law: some execution
//! two-reads                            safe 1     two_reads_end: ends with the object opened still
//! read-and-close-by-default            safe 2     read_then_close_ends: ends with the object closed
//! two-objects                          safe 3     two_objects_end: ends with one object closed, one opened
//! object-in-an-array                   safe 4     object_in_array_ends: ends with one object closed, one opened
//! second-read-is-an-error              unproved   second_read_errs, second_read_ends: has the object in the error state, and ends so
//! second-read-is-an-error-by-default   unproved   second_read_errs_by_default
//! read-after-close                     unproved   read_after_close_errs, read_after_close_ends
//! read-after-close-by-default          unproved   read_after_close_errs_by_default
//! ```
//!
//! Begin with specs/Examples.antt.
#![tactic(auto)]

pub mod laws;
