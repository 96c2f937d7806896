//! Prints the points-to sets of class files. A case is a folder of class files, perhaps with a stub file `stubs.toml`. Beside them stands
//! `entry`, whose first line is the entry method, as `A.main()V`, and whose second line, if there is one, is the limit of the pairs.
//!
//! Of a case its name is printed, and then
//!
//! ```text
//! end solved                                or: end limit LIMIT; or: end refused FILE OFFSET REASON
//! reached METHOD
//! target CALL > METHOD
//! holds PLACE : SITE
//! writes METHOD : FIELD
//! ```
//!
//! A METHOD is its class, a full stop, its name and its descriptor; a FIELD its class, a full stop, its name, a colon and its descriptor; a SITE
//! stands in brackets: its kind, its method or `-`, its offset and its class. A CALL is `start`, or a method and an offset. A PLACE is one of these:
//!
//! ```text
//! param METHOD SLOT
//! at METHOD OFFSET SLOT
//! field SITE FIELD
//! elements SITE
//! static FIELD
//! kept
//! result METHOD
//! thrown METHOD
//! ```
//!
//! The lines of one kind stand in byte order. With `counts` only the end is printed, and how many lines of each kind there are. What is to be
//! printed of a case stands beside it in `expected`, which was worked out by hand; the script `data/compare.py` compares the program with a second
//! writing of the rules, on random programs.

pub mod case;
mod listing;
mod readings;
