//! Where the classes of a program come from: the class files of a folder, and stubs.

use crate::class_file::ClassFile;
use crate::name::Name;
use crate::sequence::Sequence;
use crate::stub::{StubClass, StubMethod};

/// A class file, and the name of its file in the folder.
#[derive(Debug, Drop)]
pub struct NamedClass {
    pub file: Name,
    pub class: ClassFile,
}

/// What a class of a program comes from.
#[derive(Debug, Drop)]
pub enum Origin {
    /// A class file of the folder, and the descriptions that patches give of its native methods.
    Folder {
        file: NamedClass,
        natives: Sequence<StubMethod>,
    },
    /// A class of the library that stubs describe, with what patches add to it.
    Stub(StubClass),
}
