//! Laws of the order of lines: they call nothing.

ghost use Rattle.std.specs.Prelude.{◌≡◌};
ghost use Rattle.std.specs.Cmp.{IsTotalOrder};
ghost use Rattle.std.specs.declared.cmp.Ordering.TheVariants.{Equal};
ghost use Rattle.certificate_lines.specs.declared.line.Line.{Line as OneLine};
ghost use Rattle.certificate_lines.specs.LineOrder.{line_cmp};

/// The order of lines is total, and lines that it does not tell apart are one.
pub fn lines_are_ordered()
    ensures total { IsTotalOrder line_cmp }
    ensures exact { (x y : OneLine) → line_cmp x y ≡ Equal → x ≡ y }
{}
