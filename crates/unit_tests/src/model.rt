//! The types of class files, and what they say.

mod descriptor;
mod grammar;
mod layout;
mod result_class;
mod sound;
