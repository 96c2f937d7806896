//! Laws of the definitions that the contract of `read_table` names: they call nothing, and hold of all bytes.

ghost use Rattle.std.specs.Prelude.{◌≡◌, ◌⊎◌, ℕ, List};
ghost use Rattle.toml.specs.Data.{Members};
ghost use Rattle.toml_tables.specs.Documents.{IsDocument, IsNoDocument};

/// Bytes are at most one document, and never both a document and none; they are one of the two.
pub fn one_document()
    ensures document { (bytes : List ℕ) (members others : Members)
        → IsDocument bytes members → IsDocument bytes others → members ≡ others }
    ensures not_both { (bytes : List ℕ) (members : Members) → IsDocument bytes members → IsNoDocument bytes → ⊥ }
    ensures either { (bytes : List ℕ) → ((members : Members) × IsDocument bytes members) ⊎ IsNoDocument bytes }
{}
