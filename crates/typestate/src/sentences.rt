//! What to do about a refusal: a sentence for each reason, for the person who runs the program.

ghost use Rattle.std.specs.Prelude.{◌≡◌, ◌≢◌, All, IfSome, IfNone};
ghost use Rattle.jvm_model.specs.declared.reason.Reason.{Reason as RuleReason};
ghost use Rattle.jvm_model.specs.Words.{word_of};

use jvm_model::{Reason, reason_word};

/// All reasons, in their order.
const REASONS: [Reason; 44] = [
    Reason::Truncated,
    Reason::BadMagic,
    Reason::BadVersion,
    Reason::BadTag,
    Reason::BadIndex,
    Reason::BadUtf8,
    Reason::BadDescriptor,
    Reason::TrailingBytes,
    Reason::CodeMissing,
    Reason::CodeUnexpected,
    Reason::ClassTooLarge,
    Reason::BadOpcode,
    Reason::BadTarget,
    Reason::CodeCut,
    Reason::StackUnder,
    Reason::StackOver,
    Reason::StackMerge,
    Reason::FallsOff,
    Reason::BadLocal,
    Reason::BadHandler,
    Reason::Subroutine,
    Reason::InvokeDynamic,
    Reason::MethodConstant,
    Reason::DuplicateClass,
    Reason::MissingClass,
    Reason::Cycle,
    Reason::MissingField,
    Reason::MissingMethod,
    Reason::NoStub,
    Reason::NoImplementation,
    Reason::ClashingDefaults,
    Reason::PackageOverride,
    Reason::KindMismatch,
    Reason::Reflection,
    Reason::Threads,
    Reason::Finalizer,
    Reason::BadToml,
    Reason::BadProperty,
    Reason::BadStub,
    Reason::NoEntry,
    Reason::EntryShape,
    Reason::TooManyFiles,
    Reason::PairLimit,
    Reason::CertificateTooLarge,
];

/// The reason of a word.
pub(crate) fn reason_named(word: &[u8]) -> Option<Reason>
    ensures found { IfSome result (λ reason. word_of reason ≡ word.now) }
    ensures none { IfNone result ((reason : RuleReason) → word_of reason ≢ word.now) }
{
    named_among(&REASONS, word)
}

/// The reason of a word, among these.
fn named_among(reasons: &[Reason], word: &[u8]) -> Option<Reason>
    ensures found { IfSome result (λ reason. word_of reason ≡ word.now) }
    ensures none { IfNone result (All (λ reason. word_of reason ≢ word.now) reasons.now) }
{
    for reason in reasons {
        if reason_word(*reason).as_bytes() == word {
            return Some(*reason);
        }
    }
    None
}

/// What to do about a refusal of this reason. docs/REASONS.md has the same sentences.
pub(crate) fn sentence_on(reason: Reason) -> &'static str {
    match reason {
        Reason::Truncated => "The class file is cut off: compile it anew, or copy it whole.",
        Reason::BadMagic =>
            "This is no class file: take it out of the folder, or give it a name that does not end in .class.",
        Reason::BadVersion =>
            "Class files of the versions 45 to 52 are read: compile with --release 8, and delete a module-info.class.",
        Reason::BadTag =>
            "The constant pool has an entry that Java 8 does not know: compile with --release 8.",
        Reason::BadIndex =>
            "The class file names an entry of its constant pool that is not there or is of another kind: compile it anew.",
        Reason::BadUtf8 =>
            "A text of the class file is not spelled as a JVM wants it: compile it anew.",
        Reason::BadDescriptor =>
            "A name or a descriptor of the class file is malformed, or two of its members are alike: compile it anew.",
        Reason::TrailingBytes =>
            "Bytes follow the end of the class file: compile it anew, or copy it whole.",
        Reason::CodeMissing =>
            "A method has no code: take the class file from the library itself, and not from a jar that is for compiling alone.",
        Reason::CodeUnexpected =>
            "A method has code where it is native or abstract, or twice: compile the class anew.",
        Reason::ClassTooLarge =>
            "A class file of more than 4,194,304 bytes is not read: take it out, and describe what is used of it in the stub file.",
        Reason::BadOpcode =>
            "The code of a method that may run has an instruction that Java 8 does not know: compile its class anew.",
        Reason::BadTarget =>
            "A branch leads into the middle of an instruction: compile the class anew.",
        Reason::CodeCut =>
            "The code of a method that may run is cut off or too long: compile its class anew.",
        Reason::StackUnder =>
            "An instruction takes more than the operand stack holds: compile the class anew.",
        Reason::StackOver =>
            "The operand stack grows past the limit that the method names: compile the class anew.",
        Reason::StackMerge =>
            "Two ways reach an instruction with operand stacks of different heights: compile the class anew.",
        Reason::FallsOff => "The code of a method runs off its end: compile the class anew.",
        Reason::BadLocal =>
            "A local variable is used past the limit that the method names: compile the class anew.",
        Reason::BadHandler =>
            "An entry of a table of exception handlers is malformed: compile the class anew.",
        Reason::Subroutine =>
            "A method that may run has the instructions jsr or ret, as compilers before Java 6 wrote them: compile its class anew.",
        Reason::InvokeDynamic =>
            "A method that may run has a lambda, a method reference or, from Java 9 on, texts that are joined, which are not analysed: compile with --release 8 for the texts, and write lambdas as inner classes.",
        Reason::MethodConstant =>
            "A method that may run uses method handles, which are not analysed: begin with an entry that does not reach it.",
        Reason::DuplicateClass =>
            "One class is described twice, by two class files or by a class file and a stub: take one of them away; a stub for a class of the base stubs has to be a patch.",
        Reason::MissingClass =>
            "A class that is named is neither in the folder nor in a stub: unpack the jar that has it too, or describe it in the stub file, as tools/stubs does.",
        Reason::Cycle =>
            "A class is above itself: the folder mixes versions of its classes; compile them together.",
        Reason::MissingField =>
            "A field is named that its class in the folder does not have: the folder mixes versions of its classes; compile them together.",
        Reason::MissingMethod =>
            "A method is named that its class in the folder does not have: the folder mixes versions of its classes; compile them together.",
        Reason::NoStub =>
            "A method that may run uses a class or a member of a library that no stub describes: add it to the stub file, as tools/stubs does; methods of arrays, as clone, cannot be described.",
        Reason::NoImplementation =>
            "A call may reach a method without a body: describe it in the stub file where its class is a stub (the base stubs leave some out, docs/BASE_STUBS.md), and else take all class files from one build.",
        Reason::ClashingDefaults =>
            "A call may reach an object whose class has two default methods for it: write the method in the class.",
        Reason::PackageOverride =>
            "A class has a method of the name of one that it cannot see, in another package: rename one of the two.",
        Reason::KindMismatch =>
            "A member or a class is of another kind than where it is used, as static or not: the folder mixes versions of its classes; compile them together.",
        Reason::Reflection =>
            "A method that may run uses reflection, which is not analysed: begin with an entry that does not reach it.",
        Reason::Threads =>
            "A method that may run uses threads, which are not analysed: begin with an entry that runs on one thread.",
        Reason::Finalizer =>
            "An object is made of a class that has a finalizer or overrides fillInStackTrace, which the library calls by itself: take that method out.",
        Reason::BadToml =>
            "The file is no TOML document of at most 1,048,576 bytes: look for a missing quote or bracket, or for a key that stands twice.",
        Reason::BadProperty =>
            "The property file breaks a rule of its keys: docs/FORMATS.md has the rules, and properties/template/folder/p.toml is one to begin with.",
        Reason::BadStub =>
            "The stub file breaks a rule of its keys: docs/FORMATS.md has the rules.",
        Reason::NoEntry =>
            "No class file has a method of the entry's class and name: write the class with /, and the method behind the last full stop, as in shop/Main.main.",
        Reason::EntryShape =>
            "An entry has to be a static method with code that takes nothing, or an array of strings: write one that calls what is to be looked at.",
        Reason::TooManyFiles =>
            "At most 4,096 class files of 67,108,864 bytes together are read: delete those that the program does not use, or describe them in the stub file.",
        Reason::PairLimit =>
            "The points-to sets reached the limit of pairs: raise --pair-limit, or begin with an entry that reaches less.",
        Reason::CertificateTooLarge =>
            "The certificate has more than 1,073,741,824 bytes: begin with an entry that reaches less, or take fewer stages.",
    }
}
