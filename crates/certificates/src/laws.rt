//! Laws of the text: they call nothing.

ghost use Rattle.std.specs.Prelude.{◌≡◌, ◌≢◌, ℕ, List};
ghost use Rattle.certificate_lines.specs.declared.line.Line.{Line as OneLine};
ghost use Rattle.certificates.specs.declared.ranges.Ranges.{Ranges as InRanges};
ghost use Rattle.certificates.specs.Format.{IsBadLine, IsCertificate};
ghost use Rattle.certificates.specs.Texts.{text};

/// The first line that is not of the format is one line, and no certificate has one. A text is that of one certificate at most.
pub fn one_bad_line()
    ensures first { (r : InRanges) (bytes : List ℕ) (m n : ℕ) → IsBadLine r bytes m → IsBadLine r bytes n → m ≡ n }
    ensures none { (r : InRanges) (bytes : List ℕ) (n : ℕ) (lines : List OneLine) → IsBadLine r bytes n → IsCertificate r lines → bytes ≢ text lines }
    ensures one_certificate { (r : InRanges) (xs ys : List OneLine) → IsCertificate r xs → IsCertificate r ys → text xs ≡ text ys → xs ≡ ys }
{}
