//! Prints the path edges of class files: of each allocation site of which a report would tell, at the stages 2, 3 and 4, where a store gives a path
//! three fields at most. A case is a folder of class files, perhaps with a stub file `stubs.toml`. Beside them stand `property.toml`, and `entry`,
//! whose first line is the entry method, as `A.main()V`, and whose second line, if there is one, is how many path edges are too many.
//!
//! Of a case its name is printed. If it has no program, no entry or no solution, one line says so, as with `sets`; if the property's class is not
//! there, the line is `no class of the property`. Else there follow, for each site and each stage,
//!
//! ```text
//! site SITE stage STAGE
//! edges COUNT                               or: limit LIMIT
//! edge METHOD FACT > SPOT FACT
//! ```
//!
//! A SITE stands in brackets: its kind, its method, its offset and its class. A METHOD is `start`, or a class, a full stop, a name and a descriptor.
//! The first FACT is the one with which the method is entered, and the second one holds at the SPOT: before the node of an offset, or where the
//! method `returns` or `throws`. The lines `edge` stand in byte order. A FACT is `none` or `some`, for the objects that were made at the site, or
//! speaks of one of them:
//!
//! ```text
//! [only|any STATE must{PATH,..} may|sure not{PATH,..}]
//! ```
//!
//! It is the `only` one of its site, or `any`; it is in a STATE of the property; the paths behind `must` refer to it, and those behind `not` do not;
//! and cells in which none of the former ends `may` hold it, or for `sure` do not. A PATH is a root and the fields that are followed from it. A root
//! is the number of a slot, `static FIELD`, `returned` or `thrown`. A FIELD is its class, a full stop, its name, a colon and its descriptor, and
//! before one that is followed stands a full stop more. So, of an object that slot 0 refers to and a field of the one in slot 3:
//!
//! ```text
//! edge A.main()V none > 7 [only opened must{0,3.A.f:LF;} sure not{}]
//! ```
//!
//! What is to be printed of a case stands beside it in `expected`, which the script `data/plain_edges.py` worked out, a second writing of the rules.
//! The script `data/compare_edges.py` compares the program with it, on random programs.

pub mod case;
mod facts;
mod listing;
mod stages;
mod tabulated;
mod verdict;
