//! The names of classes differ.

ghost use Rattle.std.specs.Prelude.{◌≡◌, ℕ, List, [], ◌∷◌, ◌++◌, map, All, IfOk, OnOk, IfErr};
ghost use Rattle.program_index.specs.FirstPlaces.{StandsNowhere};
ghost use Rattle.program_index.specs.Limits.{AreTooMany};
ghost use Rattle.program_linking.specs.Claims.{TellsClaimsOrLarge, HasTextsOf, with_own_names, file_name, stub_name};
ghost use Rattle.program_linking.specs.LinkAnswers.{IsSoundFile};
ghost use Rattle.program_linking.specs.StubSources.{is_from, is_own_from, one_from, own_from};
ghost use Rattle.program_linking.specs.TooLarge.{TellsTooMany};
ghost use Rattle.jvm_model.specs.Linking.{base_first, claim, differs, file_claims, is_base_stub, own_classes, stub_claims};
ghost use Rattle.jvm_model.specs.Programs.{Program};
ghost use Rattle.jvm_model.specs.Soundness.{this_class_offset};

use failure::Failure;
use jvm_model::layout::this_class_offset;
use jvm_model::{Name, NamedClass, Reason, StubClass};
use program_index::index_failure::IndexFailure;
use program_index::text_index::TextIndex;
use program_index::texts::class_text;
use program_model::link_failure::{LinkFailure, refused};
use std::alloc::Global;

/// Where stubs come from.
#[derive(Clone, Copy)]
pub(crate) enum StubSource {
    /// They are there from the start, and a minus stands for their file.
    Base,
    /// They are those of the user's files.
    User,
}

impl StubSource {
    /// Whether a stub comes from here.
    fn has(self, c: &StubClass) -> bool
        ensures { result ≡ is_from self c.now }
    {
        match self {
            StubSource::Base => is_base_stub(c),
            StubSource::User => !is_base_stub(c),
        }
    }

    /// Whether a stub comes from here and is a class of its own.
    fn has_class(self, c: &StubClass) -> bool
        ensures { result ≡ is_own_from self c.now }
    {
        !c.is_patch && self.has(c)
    }
}

/// Whether a stub is there from the start: a minus stands for its file.
fn is_base_stub(c: &StubClass) -> bool
    ensures { result ≡ is_base_stub c.now }
{
    c.file.as_str() == "-"
}

/// The names of the stubs that are classes of their own. The failure is `TooMany` only where there are 2^32 - 1 of these or more.
pub(crate) fn stub_names(alloc: Global, stubs: &[StubClass]) -> Result<TextIndex, IndexFailure>
    ensures names { IfOk result (λ names. names ≡ with_own_names [] stubs.now) }
    ensures too_many { IfErr result (TellsTooMany (AreTooMany (own_classes stubs.now))) }
{
    let mut names = TextIndex::new(alloc);
    for c in stubs {
        add_own(&mut names, c)?;
    }
    Ok(names)
}

/// Adds the name of a stub that is a class of its own.
fn add_own(names: &mut TextIndex, c: &StubClass) -> Result<(), IndexFailure>
    ensures added { OnOk result (names.new ≡ with_own_names names.old (c.now ∷ [])) }
    ensures too_many { IfErr result (TellsTooMany (AreTooMany names.old)) }
{
    if c.is_patch {
        return Ok(());
    }
    names.intern(c.name.as_slice())?;
    Ok(())
}

/// The names of class files differ from all these others, and from those of earlier class files.
pub(crate) fn check_file_names(
    alloc: Global,
    others: &TextIndex,
    files: &[NamedClass],
) -> Result<(), LinkFailure>
    requires { All IsSoundFile files.now }
    ensures { (p : Program) (names : List (List ℕ)) → HasTextsOf others.now names → TellsClaimsOrLarge (AreTooMany files.now) p (file_claims names [] files.now) result }
{
    let mut earlier = TextIndex::new(alloc);
    for f in files {
        check_file_name(alloc, others, &mut earlier, f)?;
    }
    Ok(())
}

/// The name of a class file differs from all these others, and from the earlier ones, to which it is added.
fn check_file_name(
    alloc: Global,
    others: &TextIndex,
    earlier: &mut TextIndex,
    f: &NamedClass,
) -> Result<(), LinkFailure>
    requires { IsSoundFile f.now }
    ensures added { OnOk result (earlier.new ≡ earlier.old ++ file_name f.now ∷ []) }
    ensures told { (p : Program) (names : List (List ℕ)) → HasTextsOf others.now names
        → TellsClaimsOrLarge (AreTooMany earlier.old) p (claim f.now.file (this_class_offset f.now.class) (differs (earlier.old ++ names) (file_name f.now)) ∷ []) result }
{
    let name = class_text(f.class.pool.as_slice(), f.class.this_class);
    let offset = this_class_offset(&f.class);
    match others.find(name) {
        Some(_) => Err(refused(alloc, &f.file, offset, Reason::DuplicateClass)),
        None => add_name(alloc, earlier, name, &f.file, offset),
    }
}

/// The names of stubs that are classes of their own differ from those of earlier ones, where those that are there from the start
/// come first.
pub(crate) fn check_stub_names(alloc: Global, stubs: &[StubClass]) -> Result<(), LinkFailure>
    ensures { (p : Program) → TellsClaimsOrLarge (AreTooMany (own_classes stubs.now)) p (stub_claims [] (base_first (own_classes stubs.now))) result }
{
    let mut earlier = TextIndex::new(alloc);
    check_names_from(alloc, StubSource::Base, &mut earlier, stubs)?;
    check_names_from(alloc, StubSource::User, &mut earlier, stubs)
}

/// The names of stubs of a source that are classes of their own differ from the earlier ones, to which they are added.
fn check_names_from(
    alloc: Global,
    source: StubSource,
    earlier: &mut TextIndex,
    stubs: &[StubClass],
) -> Result<(), LinkFailure>
    ensures added { OnOk result (earlier.new ≡ earlier.old ++ map stub_name (own_from source stubs.now)) }
    ensures told { (p : Program) → TellsClaimsOrLarge (AreTooMany (earlier.old ++ map stub_name (own_from source stubs.now))) p
        (stub_claims earlier.old (own_from source stubs.now)) result }
{
    for c in stubs {
        check_stub_name(alloc, source, earlier, c)?;
    }
    Ok(())
}

/// The name of a stub, if it is one of the source and a class of its own, differs from the earlier ones, to which it is added.
fn check_stub_name(
    alloc: Global,
    source: StubSource,
    earlier: &mut TextIndex,
    c: &StubClass,
) -> Result<(), LinkFailure>
    ensures added { OnOk result (earlier.new ≡ earlier.old ++ map stub_name (one_from source c.now)) }
    ensures told { (p : Program) → TellsClaimsOrLarge (AreTooMany earlier.old) p (stub_claims earlier.old (one_from source c.now)) result }
{
    if source.has_class(c) {
        add_name(alloc, earlier, c.name.as_slice(), &c.file, 0)
    } else {
        Ok(())
    }
}

/// Adds a name that is none of the earlier ones.
fn add_name(
    alloc: Global,
    earlier: &mut TextIndex,
    name: &[u8],
    file: &Name,
    offset: u32,
) -> Result<(), LinkFailure>
    ensures added { OnOk result (earlier.new ≡ earlier.old ++ name.now ∷ []) }
    ensures told { (p : Program) → TellsClaimsOrLarge (AreTooMany earlier.old) p (claim file.now offset (differs earlier.old name.now) ∷ []) result }
{
    match earlier.find(name) {
        Some(_) => Err(refused(alloc, file, offset, Reason::DuplicateClass)),
        None => add_new_name(earlier, name).map_err(Failure::widen),
    }
}

/// Adds a name that is not there.
fn add_new_name(earlier: &mut TextIndex, name: &[u8]) -> Result<(), IndexFailure>
    requires { StandsNowhere earlier.old name.now }
    ensures added { OnOk result (earlier.new ≡ earlier.old ++ name.now ∷ []) }
    ensures too_many { IfErr result (TellsTooMany (AreTooMany earlier.old)) }
{
    earlier.intern(name)?;
    Ok(())
}
