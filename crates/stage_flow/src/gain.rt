//! The paths that a change adds to a set.

ghost use Rattle.std.specs.Prelude.{List, ◌++◌, flat_map};
ghost use Rattle.access_paths.specs.Followed.{listed};
ghost use Rattle.access_paths.specs.Paths.{Path as AccessPath};
ghost use Rattle.stage_flow.specs.Shapes.{adds_of, copied_path, loaded_path, moved_paths};
ghost use Rattle.stage_transfer.specs.Operations.{loaded_fields};
ghost use Rattle.stage_views.specs.Views.{Gathers};

use access_paths::{Fields, Path, PathSet, Root};
use jvm_model::FieldNo;
use op_model::{Move, Source};
use stage_views::Gathering;

/// The paths that a change adds to a set, for those that it has.
#[derive(Clone, Copy)]
pub enum Gain<'c> {
    Nothing,
    /// For each path of a root, that of another one.
    Copy {
        from: Root,
        to: Root,
    },
    /// The same. The slot then holds what the root, or a slot of its variable, held.
    Hand {
        from: Root,
        target: u32,
    },
    /// The same for each move of a slot.
    Moves(&'c [Move]),
    /// For each path of the object that begins with the field, what is behind that, of the target.
    Load {
        object: u32,
        field: FieldNo,
        target: u32,
    },
}

impl Gain<'_> {
    /// The paths are gathered, too.
    pub fn gather(&self, set: &PathSet, all: &mut Gathering)
        ensures { (paths : List AccessPath) → Gathers all.old paths → Gathers all.new (paths ++ adds_of self.now set.now) }
    {
        match self {
            Gain::Nothing => {}
            Gain::Copy { from, to } => copy(set, *from, *to, all),
            Gain::Hand { from, target } => copy(set, *from, Root::Slot(*target), all),
            Gain::Moves(moves) => copy_each(set, moves, all),
            Gain::Load {
                object,
                field,
                target,
            } => load(set, *object, *field, *target, all),
        }
    }
}

/// For each path of the one root, that of the other root with the same fields is gathered.
fn copy(set: &PathSet, from: Root, to: Root, all: &mut Gathering)
    ensures { (paths : List AccessPath) → Gathers all.old paths → Gathers all.new (paths ++ flat_map (copied_path from to) set.now) }
{
    for path in set.as_slice() {
        copy_path(path, from, to, all);
    }
}

/// The same for one path.
fn copy_path(path: &Path, from: Root, to: Root, all: &mut Gathering)
    ensures { (paths : List AccessPath) → Gathers all.old paths → Gathers all.new (paths ++ copied_path from to path.now) }
{
    if path.begins_at(from) {
        all.add(&path.with_root(to));
    }
}

/// The same for each move of a slot.
fn copy_each(set: &PathSet, moves: &[Move], all: &mut Gathering)
    ensures { (paths : List AccessPath) → Gathers all.old paths → Gathers all.new (paths ++ flat_map (moved_paths set.now) moves.now) }
{
    for step in moves {
        copy_moved(set, *step, all);
    }
}

/// The same for one move.
fn copy_moved(set: &PathSet, step: Move, all: &mut Gathering)
    ensures { (paths : List AccessPath) → Gathers all.old paths → Gathers all.new (paths ++ moved_paths set.now step) }
{
    match step.source {
        Source::Slot(slot) => copy(set, Root::Slot(slot), Root::Slot(step.target), all),
        Source::Null => {}
        Source::Primitive => {}
    }
}

/// For each path of the object that begins with the field, what is behind that is gathered, as a path of the target.
fn load(set: &PathSet, object: u32, field: FieldNo, target: u32, all: &mut Gathering)
    ensures { (paths : List AccessPath) → Gathers all.old paths → Gathers all.new (paths ++ flat_map (loaded_path object field target) set.now) }
{
    for path in set.as_slice() {
        load_path(path, object, field, target, all);
    }
}

/// The same for one path.
fn load_path(path: &Path, object: u32, field: FieldNo, target: u32, all: &mut Gathering)
    ensures { (paths : List AccessPath) → Gathers all.old paths → Gathers all.new (paths ++ loaded_path object field target path.now) }
{
    if path.begins_at(Root::Slot(object)) {
        load_fields(path.fields(), field, target, all);
    }
}

/// What is behind the field, if the fields begin with it, is gathered as a path of the target.
fn load_fields(fields: Fields, field: FieldNo, target: u32, all: &mut Gathering)
    ensures { (paths : List AccessPath) → Gathers all.old paths → Gathers all.new (paths ++ loaded_fields field target (listed fields)) }
{
    if let Some((first, rest)) = fields.split_first() {
        if field == first {
            all.add(&Path::along(Root::Slot(target), rest));
        }
    }
}
