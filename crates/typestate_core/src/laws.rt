//! Laws of the lines of a text: they call nothing, and stand on the definitions alone.

ghost use Rattle.std.specs.Prelude.{◌≡◌, ℕ, List, All};
ghost use Rattle.report_analysis.specs.Texts.{text_of};
ghost use Rattle.typestate_core.specs.Output.{IsLine, lines_in};

/// A text is the text of the lines into which it is cut; and the text of some lines, each of which ends with its only newline, is cut into these.
pub fn text_is_cut()
    ensures whole { (text : List ℕ) → text_of (lines_in text) ≡ text }
    ensures lines { (lines : List (List ℕ)) → All IsLine lines → lines_in (text_of lines) ≡ lines }
{}
