//! Laws of the values of descriptors: they call nothing, and hold of each text.

ghost use Rattle.std.specs.Prelude.{◌≡◌, ◌⊎◌, ℕ, List};
ghost use Rattle.jvm_model.specs.declared.descriptor.Descriptor.{Descriptor};
ghost use Rattle.jvm_model.specs.Descriptors.{IsFieldDescriptor, IsMethodDescriptor};
ghost use Rattle.jvm_model.specs.DescriptorValues.{IsDescriptorOf};

/// A text spells at most one descriptor.
pub fn one_descriptor()
    ensures { (text : List ℕ) (d e : Descriptor) → IsDescriptorOf text d → IsDescriptorOf text e → d ≡ e }
{}

/// A text that spells a descriptor is a field descriptor or a method descriptor.
pub fn descriptors_in_grammars()
    ensures { (text : List ℕ) (d : Descriptor) → IsDescriptorOf text d → IsFieldDescriptor text ⊎ IsMethodDescriptor text }
{}
