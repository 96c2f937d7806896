//! The law of linking (JVMS 5.3, 5.3.5): class files and stubs give one program, or one refusal.

ghost use Rattle.std.specs.Prelude.{◌≡◌, ◌≢◌, List, Result, AllPairs};
ghost use Rattle.jvm_model.specs.declared.program.NamedClass.{NamedClass};
ghost use Rattle.jvm_model.specs.declared.reason.Refusal.{Refusal};
ghost use Rattle.jvm_model.specs.declared.stub.StubClass.{StubClass};
ghost use Rattle.jvm_model.specs.Programs.{Program};
ghost use Rattle.jvm_model.specs.Linking.{Links};

/// Class files in files of different names, in whatever order they come, link with stubs to one program, or have one
/// first demand that is not met.
pub fn one_link()
    ensures { (files : List NamedClass) (stubs : List StubClass) (a b : Result Program Refusal)
        → AllPairs (λ f g. f.file ≢ g.file) files → Links files stubs a → Links files stubs b → a ≡ b }
{}
