//! Lines in the order of lines.

ghost use Rattle.std.specs.Prelude.{◌≡◌, ◌↔◌, Contains};
ghost use Rattle.certificate_lines.specs.declared.line.Line.{Line as OneLine};
ghost use Rattle.certificate_spec.specs.Certificates.{DoAscend};

use certificate_lines::{Line, compare_lines};

/// The lines in the order of lines, each once. It takes no memory.
pub(crate) fn in_order(lines: Vec<Line>) -> Vec<Line>
    ensures same { (line : OneLine) → Contains result.items line ↔ Contains lines.items line }
    ensures ascend { DoAscend result.items }
{
    let mut ordered = lines;
    ordered.sort_unstable_by(|one, other| compare_lines(one, other));
    ordered.dedup_by(|later, earlier| compare_lines(later, earlier).is_eq());
    ordered
}
