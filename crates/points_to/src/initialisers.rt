//! The initialisers of the class of the entry, which the start runs (JVMS 5.5).

ghost use Rattle.std.specs.Prelude.{OnOk};
ghost use Rattle.program_model.specs.Numbers.{IsMethodNumber};
ghost use Rattle.points_to_numbers.specs.Steps.{Makes};
ghost use Rattle.points_to.specs.Starting.{InitialiserItem};

use entry_points::coded_initialisers;
use jvm_model::MethodNo;
use points_to_methods::initiated_items;
use points_to_numbers::Work;
use program_index::index_failure::IndexFailure;
use program_model::program::Program;

/// Adds that the initialisers of the class of the entry run, and that what they throw is kept.
pub(crate) fn initialiser_items(
    program: &Program,
    entry: MethodNo,
    work: &mut Work,
) -> Result<(), IndexFailure>
    requires { IsMethodNumber program.now entry.0 }
    ensures { OnOk result (Makes work.old.tables work.new.tables (InitialiserItem program.now entry) work.old.steps.items work.new.steps.items) }
{
    let class = program.method(entry).class;
    let initialisers = coded_initialisers(work.alloc, program, class)?;
    for initialiser in &initialisers {
        initiated_items(*initialiser, work)?;
    }
    Ok(())
}
