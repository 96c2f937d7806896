//! Access paths and sets of them, as words of a line.

ghost use Rattle.std.specs.Prelude.{◌≡◌, ◌∷◌, ◌++◌, OnOk, codes};
ghost use Rattle.std.specs.Fmt.{decimal};
ghost use Rattle.std.specs.List.{flat_map};
ghost use Rattle.access_paths.specs.Followed.{listed};
ghost use Rattle.edge_lines.specs.EdgeLines.{field_text, path_text, paths_text, root_text};

use access_paths::{Fields, Path, PathSet, Root};
use site_report::push_number;
use std::alloc::AllocError;

/// Adds the paths of a set with commas between them, or `-` where there is none.
pub(crate) fn push_paths(text: &mut Vec<u8>, set: &PathSet) -> Result<(), AllocError>
    ensures { OnOk result (text.new.items ≡ text.old.items ++ paths_text set.now) }
{
    match set.as_slice() {
        [] => text.extend_from_slice(b"-"),
        [first, rest @ ..] => {
            push_path(text, first)?;
            push_rest(text, rest)
        }
    }
}

/// Adds each path with a comma before it.
fn push_rest(text: &mut Vec<u8>, rest: &[Path]) -> Result<(), AllocError>
    ensures { OnOk result (text.new.items ≡ text.old.items ++ flat_map (λ x. codes "," ++ path_text x) rest.now) }
{
    for path in rest {
        text.push(b',')?;
        push_path(text, path)?;
    }
    Ok(())
}

/// Adds a path: its root, and the fields that it follows.
fn push_path(text: &mut Vec<u8>, path: &Path) -> Result<(), AllocError>
    ensures { OnOk result (text.new.items ≡ text.old.items ++ path_text path.now) }
{
    push_root(text, path.root())?;
    push_fields(text, path.fields())
}

/// Adds the root of a path.
fn push_root(text: &mut Vec<u8>, root: Root) -> Result<(), AllocError>
    ensures { OnOk result (text.new.items ≡ text.old.items ++ root_text root) }
{
    match root {
        Root::Slot(slot) => push_marked(text, b'v', slot),
        Root::Static(field) => push_marked(text, b's', field.0),
        Root::Returned => text.extend_from_slice(b"ret"),
        Root::Thrown => text.extend_from_slice(b"exc"),
    }
}

/// Adds the fields that a path follows.
fn push_fields(text: &mut Vec<u8>, fields: Fields) -> Result<(), AllocError>
    ensures { OnOk result (text.new.items ≡ text.old.items ++ flat_map field_text (listed fields)) }
{
    let mut left = fields;
    while let Some((field, rest)) = left.split_first() {
        push_marked(text, b'.', field.0)?;
        left = rest;
    }
    Ok(())
}

/// Adds a mark, and a number behind it.
fn push_marked(text: &mut Vec<u8>, mark: u8, number: u32) -> Result<(), AllocError>
    ensures { OnOk result (text.new.items ≡ text.old.items ++ mark ∷ decimal number) }
{
    text.push(mark)?;
    push_number(text, number)
}
