//! Reading class files, one after another.

ghost use Rattle.std.specs.Prelude.{◌≡◌, ◌≢◌, ◌≤◌, [], ◌∷◌, ◌++◌, Bool, List, true, All, IfOk, IfErr, IfSome, IsErrOf, OnOk, map, string_bytes};
ghost use Rattle.failure.specs.declared.Failure.TheVariants.{Cause};
ghost use Rattle.jvm_model.specs.declared.program.NamedClass.{NamedClass as RuleNamedClass};
ghost use Rattle.jvm_model.specs.Soundness.{IsChecked};
ghost use Rattle.ts_outside.specs.Calls.{Called, Calls, CallsOne, all_given, listing};
ghost use Rattle.ts_outside.specs.Counts.{Rose};
ghost use Rattle.class_folder.specs.ClassFiles.{AreClassFiles, IsFolderFailure, most_bytes_together, unreadable};
ghost use Rattle.class_folder.specs.FolderCalls.{EndsFile, EndsListing, StopsReading, file_question, folder_questions, names_of_files};
ghost use Rattle.class_folder.specs.Reading.{AreListed, IsFileFailure, IsFileRead, IsNextFailure, IsReadNext, IsRefusedAs};

use crate::fault::{FolderFailure, FolderFault};
use classfile_reader::{CLASS_FILE_LIMIT, read_class};
use failure::Failure;
use jvm_model::{Fault, Name, NamedClass, Reason, Refusal};
use std::alloc::Global;
use ts_outside::{Tree, TreeFault};

/// The most class files.
const MOST_FILES: usize = 4_096;

/// The most bytes of all class files together.
const MOST_BYTES: u64 = 67_108_864;

/// The class files that were read, and how many bytes they have together.
#[derive(Drop)]
struct Reading {
    classes: Vec<NamedClass>,
    size: u64,
}

/// The class files of a tree, in byte order of the names of their files. At most 4,096 are read, of at most 4,194,304 bytes each and of at most
/// 67,108,864 bytes together. The first file that breaks a rule is refused: first by its own size, then by the size of all of them up to it, and
/// then by its bytes (JVMS 4).
pub fn read_classes<T: Tree>(alloc: Global, tree: &mut T) -> Result<Vec<NamedClass>, FolderFailure>
    ensures read { IfOk result (λ classes. IfSome (T.files tree.old) (λ files. AreClassFiles files classes.items)) }
    ensures sound { IfOk result (λ classes. All (λ (c : RuleNamedClass). IsChecked c.class) classes.items) }
    ensures failure { IfErr result (λ failure. IfSome (T.files tree.old) (λ files. IsFolderFailure files failure)) }
    ensures unreadable { IsErrOf result (Cause unreadable) → Rose (T.faults tree.old) (T.faults tree.new) }
    ensures no_fault { result ≢ Err (Cause unreadable) → T.faults tree.new ≡ T.faults tree.old }
    ensures same_files { T.files tree.new ≡ T.files tree.old }
    ensures calls { IfOk result (λ classes. Calls (T.called tree.old) (T.called tree.new) (all_given (folder_questions (names_of_files classes.items)))) }
    ensures calls_in_vain { IfErr result (λ failure. (calls : List Called) × Calls (T.called tree.old) (T.called tree.new) calls × StopsReading (T.files tree.old) calls failure) }
    ensures never_falls { T.faults tree.old ≤ T.faults tree.new }
{
    let names = listed(alloc, tree)?;
    let mut reading = Reading {
        classes: Vec::new(alloc),
        size: 0,
    };
    for name in names {
        reading.read_next(alloc, tree, name)?;
    }
    Ok(reading.classes)
}

/// The names of the class files, if there are not too many.
fn listed<T: Tree>(alloc: Global, tree: &mut T) -> Result<Vec<String>, FolderFailure>
    ensures listed { IfOk result (λ names. IfSome (T.files tree.old) (λ files. AreListed files (map string_bytes names.items))) }
    ensures failure { IfErr result (λ failure. IfSome (T.files tree.old) (λ files. IsFolderFailure files failure)) }
    ensures unreadable { IsErrOf result (Cause unreadable) → Rose (T.faults tree.old) (T.faults tree.new) }
    ensures no_fault { result ≢ Err (Cause unreadable) → T.faults tree.new ≡ T.faults tree.old }
    ensures same_files { T.files tree.new ≡ T.files tree.old }
    ensures calls { OnOk result (CallsOne (T.called tree.old) (T.called tree.new) listing true) }
    ensures calls_in_vain { IfErr result (λ failure. (is_given : Bool) × EndsListing failure is_given × CallsOne (T.called tree.old) (T.called tree.new) listing is_given) }
    ensures never_falls { T.faults tree.old ≤ T.faults tree.new }
{
    let names = match tree.list(alloc) {
        Ok(names) => names,
        Err(Failure::Cause(TreeFault::Failed)) => return Err(Failure::Cause(
            FolderFault::Unreadable,
        )),
        Err(_) => return Err(Failure::OutOfMemory),
    };
    if names.len() > MOST_FILES {
        let none = String::from_str(alloc, "-")?;
        return Err(refused(none, 0, Reason::TooManyFiles));
    }
    Ok(names)
}

impl Reading {
    /// Reads the next class file.
    fn read_next<T: Tree>(
        &mut self,
        alloc: Global,
        tree: &mut T,
        name: String,
    ) -> Result<(), FolderFailure>
        requires { self.old.size ≤ most_bytes_together }
        ensures read { OnOk result (IfSome (T.files tree.old) (λ files.
            IsReadNext files (string_bytes name) self.old.classes.items self.old.size self.new.classes.items self.new.size)) }
        ensures sound { OnOk result (All (λ (c : RuleNamedClass). IsChecked c.class) self.old.classes.items
            → All (λ (c : RuleNamedClass). IsChecked c.class) self.new.classes.items) }
        ensures size { OnOk result (self.new.size ≤ most_bytes_together) }
        ensures failure { IfErr result (λ failure. IfSome (T.files tree.old) (λ files. IsNextFailure files (string_bytes name) self.old.size failure)) }
        ensures unreadable { IsErrOf result (Cause unreadable) → Rose (T.faults tree.old) (T.faults tree.new) }
        ensures no_fault { result ≢ Err (Cause unreadable) → T.faults tree.new ≡ T.faults tree.old }
        ensures same_files { T.files tree.new ≡ T.files tree.old }
        ensures named { OnOk result (names_of_files self.new.classes.items ≡ names_of_files self.old.classes.items ++ string_bytes name ∷ []) }
        ensures calls { OnOk result (CallsOne (T.called tree.old) (T.called tree.new) (file_question (string_bytes name)) true) }
        ensures calls_in_vain { IfErr result (λ failure. (is_given : Bool) × EndsFile failure (string_bytes name) is_given
            × CallsOne (T.called tree.old) (T.called tree.new) (file_question (string_bytes name)) is_given) }
        ensures never_falls { T.faults tree.old ≤ T.faults tree.new }
    {
        let bytes = match tree.read(alloc, name.as_str(), CLASS_FILE_LIMIT + 1) {
            Ok(bytes) => bytes,
            Err(Failure::Cause(TreeFault::Missing)) => return Err(Failure::Cause(
                FolderFault::Missing(Name::from_string(name)),
            )),
            Err(Failure::Cause(TreeFault::Failed)) => return Err(Failure::Cause(
                FolderFault::Unreadable,
            )),
            Err(Failure::OutOfMemory) => return Err(Failure::OutOfMemory),
        };
        let size = self.size + bytes.len() as u64;
        let class = class_file(alloc, name, &bytes, size)?;
        self.classes.push(class)?;
        self.size = size;
        Ok(())
    }
}

/// The class file of a name, of these bytes; those up to it have so many bytes together.
fn class_file(
    alloc: Global,
    name: String,
    bytes: &[u8],
    size: u64,
) -> Result<NamedClass, FolderFailure>
    ensures read { IfOk result (IsFileRead (string_bytes name) bytes.now size) }
    ensures failure { IfErr result (IsFileFailure (string_bytes name) bytes.now size) }
{
    if bytes.len() <= CLASS_FILE_LIMIT as usize && size > MOST_BYTES {
        return Err(refused(name, 0, Reason::TooManyFiles));
    }
    match read_class(alloc, bytes) {
        Ok(class) => Ok(NamedClass {
            file: Name::from_string(name),
            class,
        }),
        Err(Failure::Cause(Fault { offset, reason })) => Err(refused(name, offset, reason)),
        Err(Failure::OutOfMemory) => Err(Failure::OutOfMemory),
    }
}

/// The refusal of a file at an offset.
fn refused(name: String, offset: u32, reason: Reason) -> FolderFailure
    ensures { IsRefusedAs (string_bytes name) offset reason result }
{
    Failure::Cause(FolderFault::Refused(Refusal {
        file: Name::from_string(name),
        offset,
        reason,
    }))
}
