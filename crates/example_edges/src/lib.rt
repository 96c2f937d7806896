//! Worked path edges of two class files. Written out are the program, its methods as nodes, the facts of the points-to analysis, and the path edges; it is proved
//! that these are the least set by the rules. The crate has laws alone; it runs nothing. They show that the rules say what they should.
//! `cases_stages` has the same class files as cases, and data/compare_written.py there compares the lists with what the program prints of them.
//! Begin with specs/Files.antt, specs/Reading.antt, specs/Throwing.antt and src/laws.rt.
#![tactic(auto)]

pub mod laws;
