//! Laws of rows of paths and facts. Nothing runs them; callers cite what they ensure.

ghost use Rattle.std.specs.Prelude.{◌≡◌, ℕ, List};
ghost use Rattle.access_paths.specs.Paths.{Path as AccessPath};
ghost use Rattle.fact_pool.specs.Rows.{AreDistinct};
ghost use Rattle.stage_facts.specs.Facts.{SiteFact};
ghost use Rattle.fact_rows.specs.FactRows.{IsFactRow};
ghost use Rattle.fact_rows.specs.PathRows.{IsPathRow, KeepsRows};

/// A row is that of one path, and of one fact.
pub fn rows_tell_values()
    ensures paths { (rows : List (List ℕ)) (row : ℕ) (x y : AccessPath) → IsPathRow rows row x → IsPathRow rows row y → x ≡ y }
    ensures facts { (rows : List (List ℕ)) (row : ℕ) (x y : SiteFact) → IsFactRow rows row x → IsFactRow rows row y → x ≡ y }
{}

/// Among rows that differ, as those of a pool do, a path has one row, and so has a fact.
pub fn values_have_one_row()
    ensures paths { (rows : List (List ℕ)) → AreDistinct rows → (i j : ℕ) (x : AccessPath) → IsPathRow rows i x → IsPathRow rows j x → i ≡ j }
    ensures facts { (rows : List (List ℕ)) → AreDistinct rows → (i j : ℕ) (x : SiteFact) → IsFactRow rows i x → IsFactRow rows j x → i ≡ j }
{}

/// Where rows are added behind those that there are, the row of a path stays its row, and so does that of a fact.
pub fn rows_stay()
    ensures paths { (old new : List (List ℕ)) → KeepsRows old new → (row : ℕ) (x : AccessPath) → IsPathRow old row x → IsPathRow new row x }
    ensures facts { (old new : List (List ℕ)) → KeepsRows old new → (row : ℕ) (x : SiteFact) → IsFactRow old row x → IsFactRow new row x }
{}
