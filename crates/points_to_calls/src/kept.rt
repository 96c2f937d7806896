//! Answers that are kept: whether objects of one class fit another one, and what calls select by the class of an object. A question is asked by
//! numbers, looked up by hashing, and answered once.

ghost use Rattle.std.specs.Prelude.{◌≡◌, ◌↔◌, ℕ, List, [], Some, slice_get, IsTrue, IfOk};
ghost use Rattle.jvm_model.specs.declared.site.Site.{Site};
ghost use Rattle.jvm_model.specs.Programs.{Program as LinkedProgram};
ghost use Rattle.jvm_model.specs.Subtypes.{Fits};
ghost use Rattle.program_model.specs.Numbers.{IsMethodNumber};
ghost use Rattle.points_to_calls.specs.KeptAnswers.{AreRight};
ghost use Rattle.call_selection.specs.OnlyAnswers.{IsOnlyAnswer};
ghost use Rattle.points_to_rules.specs.Calls.{SelectsAs};
ghost use Rattle.points_to_numbers.specs.Numbered.{Numbered, IsNumbered};

use crate::answer_keys::{FitKey, SelectKey};
use call_selection::selected_from;
use hierarchy::fits;
use indexmap::IndexMap;
use jvm_model::{MethodNo, Reason};
use points_to_numbers::{ClassNameNo, Tables};
use program_model::program::Program;
use std::alloc::{AllocError, Global};

/// Answers about classes whose names are numbered. They stay right while the tables grow.
#[derive(Drop)]
pub struct Answers {
    pub(crate) fits: IndexMap<FitKey, bool>,
    pub(crate) selected: IndexMap<SelectKey, Option<Result<MethodNo, Reason>>>,
}

impl Answers {
    /// No answer. It takes no memory.
    pub fn new(alloc: Global) -> Answers
        ensures fits { result.fits.entries ≡ [] }
        ensures selected { result.selected.entries ≡ [] }
        ensures right { (p : LinkedProgram) (n : Numbered) → AreRight p n result }
    {
        Answers {
            fits: IndexMap::new(alloc),
            selected: IndexMap::new(alloc),
        }
    }
}

/// Whether objects of the lower class fit the upper one: the kept answer, or else what is found, which is kept.
pub(crate) fn fits_kept(
    program: &Program,
    tables: &Tables,
    answers: &mut Answers,
    upper: ClassNameNo,
    lower: ClassNameNo,
) -> Result<bool, AllocError>
    requires upper { IsNumbered tables.now.classes upper.0 }
    requires lower { IsNumbered tables.now.classes lower.0 }
    requires answers { AreRight program.now tables.now answers.old }
    ensures fits { IfOk result (λ answer. (over under : List ℕ) → slice_get tables.now.classes upper.0 ≡ Some over
        → slice_get tables.now.classes lower.0 ≡ Some under
        → IsTrue answer ↔ Fits program.now over under) }
    ensures answers { AreRight program.now tables.now answers.new }
{
    let key = FitKey { upper, lower };
    if let Some(answer) = answers.fits.get(&key) {
        return Ok(*answer);
    }
    let answer = fits(program, tables.name_of(upper), tables.name_of(lower));
    answers.fits.insert(key, answer)?;
    Ok(answer)
}

/// What a call selects by the class of an object, if it may be made on it: the kept answer, or else what is found, which is kept.
pub(crate) fn selected_kept(
    program: &Program,
    tables: &Tables,
    answers: &mut Answers,
    key: SelectKey,
) -> Result<Option<Result<MethodNo, Reason>>, AllocError>
    requires resolved { IsMethodNumber program.now key.resolved.0 }
    requires class { IsNumbered tables.now.classes key.class.0 }
    requires answers { AreRight program.now tables.now answers.old }
    ensures selected { IfOk result (λ answer. (s : Site) → slice_get tables.now.classes key.class.0 ≡ Some s.class
        → IsOnlyAnswer (SelectsAs key.interface program.now key.resolved s) answer) }
    ensures answers { AreRight program.now tables.now answers.new }
{
    if let Some(answer) = answers.selected.get(&key) {
        return Ok(*answer);
    }
    let class = tables.name_of(key.class);
    let answer = selected_from(program, key.resolved, class, key.interface);
    answers.selected.insert(key, answer)?;
    Ok(answer)
}
