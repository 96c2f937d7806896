//! Where the methods of a class file stand.

ghost use Rattle.std.specs.Prelude.{◌<◌, ◌^◌, length, IfOk};
ghost use Rattle.jvm_model.specs.Spelling.{spell};
ghost use Rattle.lowering_supply.specs.Offsets.{AreOffsets};

use jvm_model::ClassFile;
use jvm_model::layout::{member_length, methods_offset};
use std::alloc::{AllocError, Global};

/// The file offset of the first byte of each method, in the order of the methods (JVMS 4.6). The class file is walked once.
pub(crate) fn method_offsets(alloc: Global, class: &ClassFile) -> Result<Vec<u32>, AllocError>
    requires { length (spell class.now) < 2 ^ 32 }
    ensures { IfOk result (λ offsets. AreOffsets class.now offsets.items) }
{
    let mut offsets = Vec::new(alloc);
    let mut offset = methods_offset(class);
    for method in class.methods.as_slice() {
        offsets.push(offset)?;
        offset += member_length(method);
    }
    Ok(offsets)
}
