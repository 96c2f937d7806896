//! Laws of the definition that the contract of `read_code` names: they call nothing, and hold of each class file.

ghost use Rattle.std.specs.Prelude.{◌≡◌, ◌+◌, ℕ, Result, Ok, Some, slice_get};
ghost use Rattle.jvm_model.specs.declared.class_file.ClassFile.{ClassFile};
ghost use Rattle.jvm_model.specs.declared.class_file.Member.{Member};
ghost use Rattle.jvm_model.specs.declared.code.Code.{Code};
ghost use Rattle.jvm_model.specs.Code.{CodeBody as Body, HasCode};
ghost use Rattle.jvm_model.specs.Layout.{HasCodeAttribute, IsCodePlace};
ghost use Rattle.jvm_model.specs.Soundness.{IsSoundClass};
ghost use Rattle.jvm_model.specs.Spelling.{ClassFits};
ghost use Rattle.jvm_model.specs.declared.reason.Fault.{Fault};
ghost use Rattle.code_reader.specs.CodeReading.{ReadsCode};
ghost use Rattle.code_reader.specs.MachineCode.{IsCodeOf};

/// The code of a method reads as one value, or has one first fault.
pub fn one_code_reading()
    ensures { (c : ClassFile) (method : ℕ) (a b : Result Code Fault) → ReadsCode c method a → ReadsCode c method b → a ≡ b }
{}

/// Each code of a sound class file has an answer: it reads as a value, or has a first fault.
pub fn each_code_is_told()
    ensures { (c : ClassFile) (method : ℕ) → IsSoundClass c → HasCodeAttribute c method → (outcome : Result Code Fault) × ReadsCode c method outcome }
{}

/// The code that is read is that of a body in which the machine finds the method's instructions: it has the limits and the
/// handlers of the body, and where an instruction stands, the machine reads the same one (JVMS 4.7.3).
pub fn code_is_the_body()
    ensures { (c : ClassFile) (method : ℕ) (m : Member) (code : Code) → ClassFits c → IsSoundClass c → slice_get c.methods method ≡ Some m
        → ReadsCode c method (Ok code) → (body : Body) × HasCode c m body × IsCodeOf body code }
{}

/// The code that is read stands eight bytes behind the first one of its attribute's body: two limits and its length stand
/// between (JVMS 4.7.3).
pub fn code_stands_at()
    ensures { (c : ClassFile) (method place : ℕ) (code : Code) → IsCodePlace c method place → ReadsCode c method (Ok code) → code.at ≡ place + 8 }
{}

/// A method has at most one body.
pub fn one_body()
    ensures { (c : ClassFile) (m : Member) (a b : Body) → HasCode c m a → HasCode c m b → a ≡ b }
{}
