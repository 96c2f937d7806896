//! Lowers the methods of a case, and prints their nodes. A case is a folder with class files, and perhaps a stub file `stubs.toml`. The
//! script `data/expect.py` makes of the texts of the cases alone what is to be printed.
//!
//! Of a case its name is printed, and then of each method whose code a class file of the case has, in the order of their numbers, its
//! class, a full stop, its name and its descriptor. A line `refused FILE OFFSET REASON` follows, or a line
//! `slots S stack T params U` and one line for each node, in this form:
//!
//! ```text
//! OFFSET: OPERATION > SUCCESSORS ! HANDLERS init CLASS throws CLASSES
//! ```
//!
//! A part of which there is nothing is left out with its sign. A handler is its target, a slash and the class that it takes, or `*`;
//! `init` is followed by the class whose initialisation the node may start. The operations are these, where lower-case words stand
//! as they are:
//!
//! ```text
//! moves TARGET<SOURCE ..                 a source is a slot, null or prim
//! load FIELD object SLOT target SLOT
//! store FIELD object SLOT value SLOT
//! load element array SLOT target SLOT
//! store element array SLOT value SLOT
//! load static FIELD target SLOT
//! store static FIELD value SLOT
//! new SITE target SLOT
//! new array SITE .. target SLOT
//! constant SITE target SLOT
//! call KIND METHOD chosen METHOD named NAME args ARGUMENTS result SLOT
//! return SLOT
//! throw SLOT
//! cast CLASS slot SLOT
//! probe SLOT
//! ```
//!
//! A FIELD is its class, a full stop, its name, a colon and its descriptor. A SITE is in brackets: its kind, its method or `-`, its
//! offset and its class. KIND is `virtual`, `special`, `static` or `interface`, NAME the name and the descriptor in the instruction,
//! and an argument is the slot of a reference, or `.` for a unit of a primitive.
//! So the node of a call that passes a long, in the range of a handler:
//!
//! ```text
//! 5: call virtual A.f(J)LA; named f(J)LA; args 3 . . result 3 > 8 ! 9/java/lang/Error throws java/lang/NullPointerException
//! ```

pub mod case;
mod code;
mod node;
mod operations;
