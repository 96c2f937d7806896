//! Laws of guesses: they call nothing.

ghost use Rattle.std.specs.Prelude.{◌≡◌, ℕ, List, ◌++◌};
ghost use Rattle.certificate_lines.specs.declared.line.Line.{Line as OneLine};
ghost use Rattle.certificate_lines.specs.LineTexts.{line_text};
ghost use Rattle.line_guesses.specs.Guess.{line_at};
ghost use Rattle.line_guesses.specs.Fits.{Fits};

/// A line is guessed where it stands at the front of bytes, so no line begins another; and whatever is guessed fits its types.
pub fn lines_are_guessed()
    ensures guessed { (x : OneLine) (rest : List ℕ) → Fits x → line_at (line_text x ++ rest) ≡ (x, rest) }
    ensures fit { (bytes : List ℕ) → Fits (line_at bytes).0 }
    ensures one_line { (x y : OneLine) (r s : List ℕ) → Fits x → Fits y → line_text x ++ r ≡ line_text y ++ s → (x ≡ y) × (r ≡ s) }
{}
