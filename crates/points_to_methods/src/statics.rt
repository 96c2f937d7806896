//! Loads of static fields: what the field holds, and what it begins with.

ghost use Rattle.std.specs.Prelude.{◌≡◌, ℕ, List, Some, option_map, slice_get, IfSome, OnOk};
ghost use Rattle.program_model.specs.Numbers.{IsFieldNumber};
ghost use Rattle.op_model.specs.declared.node.Node.{Node};
ghost use Rattle.points_to_constraints.specs.NodeItems.{LoadStaticItem};
ghost use Rattle.points_to_methods.specs.Known.{HasNode, IsNamed};
ghost use Rattle.points_to_rules.specs.Rules.{BeginsWith};
ghost use Rattle.points_to_numbers.specs.Steps.{Makes};

use crate::{FixedPlace, NamedMethod, Outgoing, Passing, hold, pass_after};
use jvm_model::FieldNo;
use points_to_numbers::{Work, boot_site};
use program_index::index_failure::IndexFailure;
use program_model::program::Program;

/// Adds what a load of a static field leads to.
pub(crate) fn load_static(
    at: &NamedMethod<'_>,
    node: usize,
    field: FieldNo,
    target: u32,
    work: &mut Work,
) -> Result<(), IndexFailure>
    requires known { IsNamed at.now }
    requires there { HasNode at.now node }
    requires field { IsFieldNumber at.now.program.now field.0 }
    ensures { (n : Node) → slice_get at.now.method.now.nodes node ≡ Some n
        → OnOk result (Makes work.old.tables work.new.tables (LoadStaticItem at.now.program.now at.now.method.now n field target) work.old.steps.items work.new.steps.items) }
{
    let outgoing = Outgoing {
        from: FixedPlace::Static(field),
        passing: Passing::To,
    };
    pass_after(at, node, outgoing, target, work)?;
    let Some(class) = first_class(at.program, field) else {
        return Ok(());
    };
    let site = boot_site(&mut work.tables, class)?;
    hold(FixedPlace::Static(field), site, work)?;
    Ok(())
}

/// The class of the object that a static field begins with, if it begins with one: what its stub names; or, of a String of a class of the folder,
/// that of a constant (JVMS 4.7.2).
fn first_class(program: &Program, field: FieldNo) -> Option<&[u8]>
    requires { IsFieldNumber program.now field.0 }
    ensures found { IfSome result (λ class. BeginsWith program.now field class.now) }
    ensures one { (class : List ℕ) → BeginsWith program.now field class → option_map (λ c. c.now) result ≡ Some class }
{
    program.well_formed();
    if let Some(held) = program.held_class(field) {
        return Some(held);
    }
    let member = program.field(field);
    if member.signature.descriptor != b"Ljava/lang/String;".as_slice() {
        return None;
    }
    if program.is_folder(member.class) {
        Some(b"java/lang/String")
    } else {
        None
    }
}
