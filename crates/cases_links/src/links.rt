//! Links the class files and the stubs of a case, asks the program what the queries of the case ask, and prints the answers. A case is a
//! folder with class files, perhaps a stub file `stubs.toml`, and a file `queries`.

pub mod answer;
pub mod case;
mod flow;
mod query;
mod searches;
