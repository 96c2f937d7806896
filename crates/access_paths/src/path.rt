//! A path.

ghost use Rattle.std.specs.Prelude.{◌≡◌, ◌≤◌, nat_lt, length, if◌then◌else◌};
ghost use Rattle.access_paths.specs.Followed.{listed, most_fields};
ghost use Rattle.access_paths.specs.Gains.{rest_behind};
ghost use Rattle.access_paths.specs.Operations.{begins_at, behind, passes_field, with_field, with_root};
ghost use Rattle.access_paths.specs.Orders.{path_order};
ghost use Rattle.access_paths.specs.Paths.{bare, same_path};

use crate::fields::Fields;
use crate::root::Root;
use jvm_model::number::FieldNo;
use std::cmp::Ordering;
use std::marker::Model;

/// A root, and the instance fields that are followed from it, one after another: three at most.
#[derive(Clone, Copy)]
pub struct Path {
    root: Root,
    fields: Fields,
}

impl Model for Path {
    ghost use Rattle.access_paths.specs.Followed.{listed, first_three, first_three-listed};
    ghost use Rattle.access_paths.specs.Paths.{Path as AccessPath};

    ghost Value = { AccessPath };

    ghost view = { λ x. record { root = x.root; fields = listed x.fields } };

    ghost inverse = { λ x. record { root = x.root; fields = first_three x.fields } };

    ghost inverse_ok = { λ x h. λ i. record { root = x.root; fields = first_three-listed x.fields i } };
}

/// What the free places of a set hold: the bare path of what is returned. Nothing reads them.
impl Default for Path {
    ghost use Rattle.std.specs.Prelude.{◌≡◌};
    ghost use Rattle.access_paths.specs.Paths.{bare};
    ghost use Rattle.access_paths.specs.declared.root.Root.TheVariants.{Returned};

    ghost is_default = { λ x. x ≡ bare Returned };

    fn default() -> Path {
        Path::new(Root::Returned)
    }
}

impl Path {
    /// The path of a root alone.
    pub fn new(root: Root) -> Path
        ensures { result ≡ bare root }
    {
        Path {
            root,
            fields: Fields::Zero,
        }
    }

    /// The path of a root that follows these fields.
    pub fn along(root: Root, fields: Fields) -> Path
        ensures root { result.root ≡ root }
        ensures fields { result.fields ≡ listed fields }
    {
        Path { root, fields }
    }

    /// What holds of each path: it follows three fields at most. It does nothing.
    pub fn well_formed(&self)
        ensures { length self.now.fields ≤ most_fields }
    {
        let _count = self.fields.len();
    }

    /// Where the path begins.
    pub fn root(&self) -> Root
        ensures { result ≡ self.now.root }
    {
        self.root
    }

    /// The fields that the path follows, one after another.
    pub fn fields(&self) -> Fields
        ensures { listed result ≡ self.now.fields }
    {
        self.fields
    }

    /// How many fields the path follows.
    pub fn field_count(&self) -> usize
        ensures count { result ≡ length self.now.fields }
        ensures few { result ≤ most_fields }
    {
        self.fields.len()
    }

    /// Whether the path begins at the root.
    pub fn begins_at(&self, root: Root) -> bool
        ensures { result ≡ begins_at root self.now }
    {
        root == self.root
    }

    /// Whether the path follows the field.
    pub fn passes(&self, field: FieldNo) -> bool
        ensures { result ≡ passes_field field self.now }
    {
        self.fields.contains(field)
    }

    /// The path of another root with the same fields.
    pub fn with_root(&self, root: Root) -> Path
        ensures { result ≡ with_root root self.now }
    {
        Path {
            root,
            fields: self.fields,
        }
    }

    /// The path that follows a field more; `None` where this one follows three already.
    pub fn with_field(&self, field: FieldNo) -> Option<Path>
        ensures { result ≡ (if nat_lt (length self.now.fields) most_fields then Some (with_field field self.now) else None) }
    {
        let fields = self.fields.with_last(field)?;
        Some(Path {
            root: self.root,
            fields,
        })
    }

    /// The field of an object, and from there the fields of the path; `None` where the path follows three already.
    pub(crate) fn behind(&self, object: Root, field: FieldNo) -> Option<Path>
        ensures { result ≡ (if nat_lt (length self.now.fields) most_fields then Some (behind object field self.now) else None) }
    {
        let fields = self.fields.with_first(field)?;
        Some(Path {
            root: object,
            fields,
        })
    }

    /// What is left of the path behind its first field, as a path of the target; `None` where it does not begin with that field.
    pub(crate) fn rest_behind(&self, field: FieldNo, target: Root) -> Option<Path>
        ensures { result ≡ rest_behind field target self.now.fields }
    {
        let (first, fields) = self.fields.split_first()?;
        if field != first {
            return None;
        }
        Some(Path {
            root: target,
            fields,
        })
    }

    /// How the path stands to another in the order: by their roots, and then by their fields.
    pub fn compare(&self, other: &Path) -> Ordering
        ensures { result ≡ path_order self.now other.now }
    {
        match self.root.cmp(&other.root) {
            Ordering::Less => Ordering::Less,
            Ordering::Equal => self.fields.compare(other.fields),
            Ordering::Greater => Ordering::Greater,
        }
    }

    /// Whether the two are the same path.
    pub fn is_same(&self, other: &Path) -> bool
        ensures { result ≡ same_path self.now other.now }
    {
        self.compare(other).is_eq()
    }
}
