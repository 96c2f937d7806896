//! The limit on the size of a class file.

/// The most bytes that a class file may have.
pub const CLASS_FILE_LIMIT: u32 = 4_194_304;
