//! What each path of a set adds to it.

ghost use Rattle.std.specs.Prelude.{◌≡◌};
ghost use Rattle.access_paths.specs.Gains.{gained, is_long_store};

use crate::fields::MOST_FIELDS;
use crate::path::Path;
use crate::root::Root;
use jvm_model::number::FieldNo;

/// What each path of a set adds to it: one path at most.
#[derive(Clone, Copy)]
pub enum Gain {
    /// Of a path of the source, that of the target with the same fields.
    Copied {
        source: Root,
        target: Root,
    },
    /// Of a path of the source, that behind the field of the object, unless it would follow more fields than `depth`, or more than three.
    Stored {
        source: Root,
        object: Root,
        field: FieldNo,
        depth: u8,
    },
    /// Of a path of the object that begins with the field, what is left behind it, as a path of the target.
    Loaded {
        object: Root,
        field: FieldNo,
        target: Root,
    },
}

impl Gain {
    /// What the path adds.
    pub fn of(self, path: &Path) -> Option<Path>
        ensures { result ≡ gained self path.now }
    {
        match self {
            Gain::Copied { source, target } => path
                .begins_at(source)
                .then_some(path.with_root(target)),
            Gain::Stored {
                source,
                object,
                field,
                depth,
            } => stored(path, source, object, field, depth),
            Gain::Loaded {
                object,
                field,
                target,
            } => loaded(path, object, field, target),
        }
    }
}

/// The path behind the field of the object, if it is one of the source and is not too long there.
fn stored(path: &Path, source: Root, object: Root, field: FieldNo, depth: u8) -> Option<Path>
    ensures { result ≡ gained (Gain.Stored source object field depth) path.now }
{
    if path.begins_at(source) && path.field_count() < depth as usize {
        return path.behind(object, field);
    }
    None
}

/// What is left of the path behind its field, as a path of the target, if it is one of the object.
fn loaded(path: &Path, object: Root, field: FieldNo, target: Root) -> Option<Path>
    ensures { result ≡ gained (Gain.Loaded object field target) path.now }
{
    if path.begins_at(object) {
        return path.rest_behind(field, target);
    }
    None
}

/// Whether the path is one of the source and would follow more fields than `depth`, or more than three, behind a field more.
pub fn is_long_store(path: &Path, source: Root, depth: u8) -> bool
    ensures { result ≡ is_long_store source depth path.now }
{
    path.begins_at(source) && path.field_count() >= MOST_FIELDS.min(depth as usize)
}
