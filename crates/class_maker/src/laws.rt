//! A law of class files: it calls nothing, and holds of each class file.

ghost use Rattle.jvm_model.specs.declared.class_file.ClassFile.{ClassFile};
ghost use Rattle.jvm_model.specs.Spelling.{ClassFits};
ghost use Rattle.class_maker.specs.Counts.{IsCountedClass};

/// The lists of a class file that fits its fields, as one that was read does, are no longer than their counts can say.
pub fn fitting_classes_are_counted()
    ensures { (c : ClassFile) → ClassFits c → IsCountedClass c }
{}
