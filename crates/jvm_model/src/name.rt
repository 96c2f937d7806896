//! Names that are text, as those of files and of states.

ghost use Rattle.std.specs.Prelude.{◌≡◌, ℕ, List, string_bytes};

use std::marker::Model;

/// A text that names something. Contracts see its bytes.
#[derive(Debug, Drop)]
pub struct Name {
    text: String,
}

impl Model for Name {
    ghost Value = { List ℕ };

    ghost view = { λ n. string_bytes n.text };
}

impl Name {
    /// The name that a text spells. It takes no memory.
    pub fn from_string(text: String) -> Self
        ensures { result ≡ string_bytes text }
    {
        Name { text }
    }

    /// The text. It takes no memory.
    pub fn into_string(self) -> String
        ensures { string_bytes result ≡ self }
    {
        let Name { text } = self;
        text
    }

    /// The text.
    pub fn as_str(&self) -> &str
        ensures { result.now ≡ self.now }
    {
        self.text.as_str()
    }
}
