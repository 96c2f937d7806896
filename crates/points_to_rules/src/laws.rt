//! Laws of the rules: they call nothing, and hold of each program.
