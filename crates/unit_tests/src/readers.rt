//! Class files, code and flow graphs that are read.

mod class_file;
mod code;
mod graph;
