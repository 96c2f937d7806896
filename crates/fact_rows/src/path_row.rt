//! A path as a row: the kind of its root, the number of its root, and the numbers of its fields.

ghost use Rattle.std.specs.Prelude.{◌≡◌, ◌<◌, length, map, IfOk, IsOk, OnErr, OnOk};
ghost use Rattle.access_paths.specs.Followed.{listed};
ghost use Rattle.access_paths.specs.Paths.{number_of};
ghost use Rattle.access_paths.specs.Paths.{Path as AccessPath};
ghost use Rattle.fact_pool.specs.Rows.{HasSpare, IsInterned, KeepsRoom};
ghost use Rattle.fact_rows.specs.PathRows.{kind_of, path_words, root_number, IsPathRow, KeepsRows};

use access_paths::{Fields, Path, Root};
use fact_pool::{FactPool, Row};
use jvm_model::number::FieldNo;
use std::alloc::AllocError;

/// The row of a path, which becomes the last row where there is none yet. It answers an error where memory runs out. Nothing has changed
/// then.
pub fn pack_path(path: &Path, pool: &mut FactPool) -> Result<Row, AllocError>
    requires { length pool.old.rows < u32.MAX }
    ensures row { IfOk result (λ row. IsPathRow pool.new.rows row.0 path.now) }
    ensures interned { OnOk result (IsInterned pool.old pool.new (path_words path.now)) }
    ensures kept { KeepsRows pool.old.rows pool.new.rows }
    ensures err { OnErr result (pool.new ≡ pool.old) }
    ensures room { KeepsRoom pool.old pool.new }

    // One row and five words that are spare take no memory.
    ensures sure { HasSpare pool.old 1 5 → IsOk result }
{
    path.well_formed();
    let (kind, number) = root_words(path.root());
    match path.fields() {
        Fields::Zero => pool.intern(&[kind, number]),
        Fields::One(first) => pool.intern(&[kind, number, first.0]),
        Fields::Two(first, second) => pool.intern(&[kind, number, first.0, second.0]),
        Fields::Three(first, second, third) => pool.intern(&[
            kind, number, first.0, second.0, third.0,
        ]),
    }
}

/// The path of a row.
pub fn unpack_path(pool: &FactPool, row: Row) -> Path
    requires { (path : AccessPath) × IsPathRow pool.now.rows row.0 path }
    ensures { (path : AccessPath) → IsPathRow pool.now.rows row.0 path → result ≡ path }
{
    let words = pool.words(row);
    Path::along(root_of(words[0], words[1]), fields_of(&words[2..]))
}

/// The kind of a root, and its number.
fn root_words(root: Root) -> (u32, u32)
    ensures kind { result.0 ≡ kind_of root }
    ensures number { result.1 ≡ root_number root }
{
    match root {
        Root::Slot(slot) => (0, slot),
        Root::Static(field) => (1, field.0),
        Root::Returned => (2, 0),
        Root::Thrown => (3, 0),
    }
}

/// The root of a kind with a number.
fn root_of(kind: u32, number: u32) -> Root
    ensures { (root : Root) → kind ≡ kind_of root → number ≡ root_number root → result ≡ root }
{
    match kind {
        0 => Root::Slot(number),
        1 => Root::Static(FieldNo(number)),
        2 => Root::Returned,
        _ => Root::Thrown,
    }
}

/// The fields with these numbers.
fn fields_of(numbers: &[u32]) -> Fields
    ensures { (fields : Fields) → numbers.now ≡ map number_of (listed fields) → result ≡ fields }
{
    match numbers {
        [] => Fields::Zero,
        [first] => Fields::One(FieldNo(*first)),
        [first, second] => Fields::Two(FieldNo(*first), FieldNo(*second)),
        [first, second, third, ..] => Fields::Three(
            FieldNo(*first),
            FieldNo(*second),
            FieldNo(*third),
        ),
    }
}
