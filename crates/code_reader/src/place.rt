//! Where the methods of a class file stand, and the code in one (JVMS 4.6, 4.7.3).

ghost use Rattle.std.specs.Prelude.{◌≡◌, ◌<◌, ◌≤◌, ◌^◌, true, length};
ghost use Rattle.std.specs.List.{flat_map, list_any};
ghost use Rattle.jvm_model.specs.Soundness.{is_code};
ghost use Rattle.jvm_model.specs.Spelling as spelling;
ghost use Rattle.code_reader.specs.Places.{method_offset, IsCodeAfter};

use jvm_model::layout::{attribute_length, is_code, member_length, methods_offset};
use jvm_model::{Attribute, ClassFile, PoolEntry};

/// The file offset of the first byte of a method, which is named by its place in the list of the methods (JVMS 4.6):
/// before it stand the methods before this one. To read the code of many methods of a class, take this of the first one
/// and add `jvm_model::layout::member_length` of each.
pub fn method_offset(class: &ClassFile, method: usize) -> u32
    requires size { length (spelling.spell class.now) < 2 ^ 32 }
    requires there { method ≤ length class.now.methods }
    ensures { result ≡ method_offset class.now method }
{
    let mut offset = methods_offset(class);
    for earlier in &class.methods.as_slice()[..method] {
        offset += member_length(earlier);
    }
    offset
}

/// The first attribute named `Code`, and how many bytes the attributes before it take.
#[derive(Clone, Copy)]
pub(crate) struct FoundCode<'a> {
    pub(crate) before: u32,
    pub(crate) code: &'a Attribute,
}

/// The first attribute named `Code` (JVMS 4.7.3).
pub(crate) fn found_code<'a>(pool: &[PoolEntry], attributes: &'a [Attribute]) -> FoundCode<'a>
    requires size { length (flat_map spelling.attribute attributes.now) < 2 ^ 32 }
    requires code { list_any (is_code pool.now) attributes.now ≡ true }
    ensures { IsCodeAfter pool.now attributes.now result.before result.code.now }
{
    let mut before = 0;
    for attribute in attributes {
        if is_code(pool, attribute) {
            return FoundCode {
                before,
                code: attribute,
            };
        }
        before += attribute_length(attribute);
    }
    unreachable!()
}
