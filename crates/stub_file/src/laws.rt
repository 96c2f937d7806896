//! Laws of the definitions that the contracts name: they call nothing.

ghost use Rattle.std.specs.Prelude.{◌≡◌, ◌⊎◌, ℕ, List};
ghost use Rattle.jvm_model.specs.declared.stub.StubClass.{StubClass};
ghost use Rattle.failure.specs.declared.Failure.{Failure};
ghost use Rattle.stub_file.specs.declared.stub_failure.StubFault.{StubFault};
ghost use Rattle.failure.specs.declared.Failure.TheVariants.{OutOfMemory};
ghost use Rattle.stub_file.specs.BaseLaws.{IsClosedTable};
ghost use Rattle.stub_file.specs.BaseStubs.{base_classes};
ghost use Rattle.stub_file.specs.StubFile.{IsStubRefusal, IsStubFile};

/// Bytes are at most one stub file, are refused for at most one reason, memory aside, and never both.
pub fn one_answer()
    ensures file { (file bytes : List ℕ) (classes others : List StubClass)
        → IsStubFile file bytes classes → IsStubFile file bytes others → classes ≡ others }
    ensures reason { (file bytes : List ℕ) (refusal other : Failure StubFault) → IsStubRefusal file bytes refusal → IsStubRefusal file bytes other
        → ((refusal ≡ OutOfMemory) ⊎ (other ≡ OutOfMemory)) ⊎ (refusal ≡ other) }
    ensures not_both { (file bytes : List ℕ) (classes : List StubClass) (refusal : Failure StubFault)
        → IsStubFile file bytes classes → IsStubRefusal file bytes refusal → refusal ≡ OutOfMemory }
{}

/// The base stubs keep the rules of a stub file, no two have one name, and each class that one of them mentions, as a
/// supertype or as what a method returns or throws or a field holds, is one of them.
pub fn base_stubs_are_closed()
    ensures { IsClosedTable base_classes }
{}
