//! Certificates that were read.

ghost use Rattle.std.specs.Prelude.{◌≡◌};

use certificate_lines::Line;
use std::marker::Model;

/// The lines of a certificate, in order. Contracts see the list; the line at a place has this number and one more.
#[derive(Drop)]
pub struct Certificate {
    lines: Vec<Line>,
}

impl Model for Certificate {
    ghost use Rattle.std.specs.Prelude.{List};
    ghost use Rattle.certificate_lines.specs.declared.line.Line.{Line as OneLine};

    ghost Value = { List OneLine };

    ghost view = { λ c. c.lines.items };
}

impl Certificate {
    /// The certificate of these lines.
    pub(crate) fn from_vec(lines: Vec<Line>) -> Self
        ensures { result ≡ lines.items }
    {
        Certificate { lines }
    }

    /// The lines, in order.
    pub fn lines(&self) -> &[Line]
        ensures { result.now ≡ self.now }
    {
        self.lines.as_slice()
    }
}
