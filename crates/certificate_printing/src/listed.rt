//! The lines of what stands in lists: which methods may run, and which may write what.

ghost use Rattle.std.specs.Prelude.{◌≡◌, OnOk};
ghost use Rattle.ground.specs.Added.{AreAdded, OfOne};
ghost use Rattle.certificate_printing.specs.Collected.{IsReachedLine, IsWriteLine};

use certificate_lines::Line;
use ground::FieldWrite;
use jvm_model::MethodNo;
use std::alloc::AllocError;

/// Adds a line.
pub(crate) fn add_line(line: Line, lines: &mut Vec<Line>) -> Result<(), AllocError>
    ensures { OnOk result (AreAdded (λ other. line ≡ other) lines.old.items lines.new.items) }
{
    lines.push(line)?;
    Ok(())
}

/// Adds the line of each method that may run.
pub(crate) fn add_reached(methods: &[MethodNo], lines: &mut Vec<Line>) -> Result<(), AllocError>
    ensures { OnOk result (AreAdded (OfOne IsReachedLine methods.now) lines.old.items lines.new.items) }
{
    for method in methods {
        add_line(Line::Reached(*method), lines)?;
    }
    Ok(())
}

/// Adds the line of each method with a field that it may write.
pub(crate) fn add_writes(writes: &[FieldWrite], lines: &mut Vec<Line>) -> Result<(), AllocError>
    ensures { OnOk result (AreAdded (OfOne IsWriteLine writes.now) lines.old.items lines.new.items) }
{
    for write in writes {
        add_line(
            Line::Modifies {
                method: write.method,
                field: write.field,
            },
            lines,
        )?;
    }
    Ok(())
}
