//! Why an input is refused.

ghost use Rattle.std.specs.Prelude.{◌≡◌, Some};
ghost use Rattle.failure.specs.declared.Failure.TheVariants.{Cause};
ghost use Rattle.jvm_model.specs.Words.{word_of};

use crate::name::Name;
use failure::Failure;
use std::error::Error;
use std::fmt;

/// The reason of a refusal, in the order in which reasons at one offset are named; in code `BadIndex` comes last.
#[derive(Clone, Copy, Debug, PartialEq, Eq, PartialOrd, Ord, Hash)]
pub enum Reason {
    /// The file ends before or inside a field.
    Truncated,
    /// The first four bytes are not 0xCAFEBABE.
    BadMagic,
    /// The major version is not 45 to 52.
    BadVersion,
    /// A tag of the constant pool is not one of JVMS 4.4.
    BadTag,
    /// The constant pool does not fit its count; or an index that is used leads nowhere, or to another kind of entry.
    BadIndex,
    /// A text of the constant pool has a byte 0, or one from 0xF0 on.
    BadUtf8,
    /// A name or a descriptor is not in its grammar; an array stands for a class; or two members agree in both.
    BadDescriptor,
    /// Bytes follow the last attribute.
    TrailingBytes,
    /// A method that is neither native nor abstract has no code.
    CodeMissing,
    /// A method has code and is native or abstract, or has a second code.
    CodeUnexpected,
    /// The file has more bytes than the limit.
    ClassTooLarge,
    /// An opcode, or the code of a type, a count or a table beside it, is none of JVMS 6.5.
    BadOpcode,
    /// A branch leads to where no instruction begins.
    BadTarget,
    /// The body of a Code attribute ends too early or too late, or an instruction runs past the end of the code.
    CodeCut,
    /// An instruction takes more units of the operand stack than there are.
    StackUnder,
    /// The operand stack grows past the limit of the method.
    StackOver,
    /// Two ways reach an instruction with different heights of the operand stack.
    StackMerge,
    /// An instruction goes on past the end of the code.
    FallsOff,
    /// A local variable that is used is not below the limit of the method.
    BadLocal,
    /// An exception handler covers no code, is not at instructions, or names no class.
    BadHandler,
    /// An instruction of a subroutine: `jsr`, `jsr_w` or `ret`.
    Subroutine,
    /// A call whose target a method of the program chooses at run time: `invokedynamic`.
    InvokeDynamic,
    /// A method handle or a method type is loaded, or a method of java/lang/invoke/MethodHandle is called.
    MethodConstant,
    /// Two classes have one name.
    DuplicateClass,
    /// A class that a class, a stub or a property names is not in the program.
    MissingClass,
    /// A class is a proper supertype of itself.
    Cycle,
    /// A field is not found, and the class named with it is one of the folder.
    MissingField,
    /// A method is not found, and the class named with it is one of the folder.
    MissingMethod,
    /// A class or a member of the library, or a native method, is used that no stub describes.
    NoStub,
    /// The method to be called is not there, or is abstract.
    NoImplementation,
    /// Several superinterfaces have a method that could be called, and none of them is more specific than the others.
    ClashingDefaults,
    /// A method of another package hides a method that no modifier lets it override.
    PackageOverride,
    /// An interface stands where a class has to, a static member where an instance member has to, or the reverse.
    KindMismatch,
    /// A class or a method that looks at the program itself is named.
    Reflection,
    /// A class of threads or of what they share is named, or a method by which they wait for each other is called.
    Threads,
    /// An object is made whose class has a method that the library calls by itself.
    Finalizer,
    /// A file is too large, is not UTF-8, or is no TOML document.
    BadToml,
    /// A property file breaks a rule of its keys.
    BadProperty,
    /// A stub file breaks a rule of its keys.
    BadStub,
    /// No class file is that of the entry's class and has a method of the entry's name.
    NoEntry,
    /// No method of the entry's name can start a program.
    EntryShape,
    /// There are more class files than the limit, or more bytes of them together.
    TooManyFiles,
    /// The points-to sets have as many pairs of a place and a site as the limit.
    PairLimit,
    /// The text of the certificate is over the limit.
    CertificateTooLarge,
}

impl fmt::Display for Reason {
    ghost output = { λ reason. Some (word_of reason) };

    fn fmt<W: fmt::Write>(&self, f: &mut fmt::Formatter<W>) -> fmt::Result {
        f.write_str(reason_word(*self))
    }
}

impl Error for Reason {}

/// The word that is printed for a reason: the name of its variant.
pub fn reason_word(reason: Reason) -> &'static str
    ensures { result.now ≡ word_of reason }
{
    match reason {
        Reason::Truncated => "Truncated",
        Reason::BadMagic => "BadMagic",
        Reason::BadVersion => "BadVersion",
        Reason::BadTag => "BadTag",
        Reason::BadIndex => "BadIndex",
        Reason::BadUtf8 => "BadUtf8",
        Reason::BadDescriptor => "BadDescriptor",
        Reason::TrailingBytes => "TrailingBytes",
        Reason::CodeMissing => "CodeMissing",
        Reason::CodeUnexpected => "CodeUnexpected",
        Reason::ClassTooLarge => "ClassTooLarge",
        Reason::BadOpcode => "BadOpcode",
        Reason::BadTarget => "BadTarget",
        Reason::CodeCut => "CodeCut",
        Reason::StackUnder => "StackUnder",
        Reason::StackOver => "StackOver",
        Reason::StackMerge => "StackMerge",
        Reason::FallsOff => "FallsOff",
        Reason::BadLocal => "BadLocal",
        Reason::BadHandler => "BadHandler",
        Reason::Subroutine => "Subroutine",
        Reason::InvokeDynamic => "InvokeDynamic",
        Reason::MethodConstant => "MethodConstant",
        Reason::DuplicateClass => "DuplicateClass",
        Reason::MissingClass => "MissingClass",
        Reason::Cycle => "Cycle",
        Reason::MissingField => "MissingField",
        Reason::MissingMethod => "MissingMethod",
        Reason::NoStub => "NoStub",
        Reason::NoImplementation => "NoImplementation",
        Reason::ClashingDefaults => "ClashingDefaults",
        Reason::PackageOverride => "PackageOverride",
        Reason::KindMismatch => "KindMismatch",
        Reason::Reflection => "Reflection",
        Reason::Threads => "Threads",
        Reason::Finalizer => "Finalizer",
        Reason::BadToml => "BadToml",
        Reason::BadProperty => "BadProperty",
        Reason::BadStub => "BadStub",
        Reason::NoEntry => "NoEntry",
        Reason::EntryShape => "EntryShape",
        Reason::TooManyFiles => "TooManyFiles",
        Reason::PairLimit => "PairLimit",
        Reason::CertificateTooLarge => "CertificateTooLarge",
    }
}

/// A refusal of a file: its name, the offset in the file, counted from its first byte, and the reason. A property file, a
/// stub file and what no file says have the offset 0.
#[derive(Debug, Drop)]
pub struct Refusal {
    pub file: Name,
    pub offset: u32,
    pub reason: Reason,
}

/// What is wrong with a class file, and at which offset, counted from its first byte.
#[derive(Clone, Copy, Debug, PartialEq, Eq, thiserror::Error)]
#[error("refused at offset {offset}: {reason}")]
pub struct Fault {
    pub offset: u32,
    pub reason: Reason,
}

/// Why a class file is not read.
pub type ReadFailure = Failure<Fault>;

/// The failure whose cause is a fault at an offset.
pub fn fault_at(offset: u32, reason: Reason) -> ReadFailure
    ensures { result ≡ Cause (record { offset = offset; reason = reason }) }
{
    Failure::Cause(Fault { offset, reason })
}
