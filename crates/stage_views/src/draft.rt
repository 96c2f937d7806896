//! A tuple while it is gathered, and the fact that it gives.

ghost use Rattle.std.specs.Prelude.{◌≡◌, true, []};
ghost use Rattle.stage_facts.specs.Facts.{Tuple, of_object};
ghost use Rattle.stage_facts.specs.Plain.{fact_of};
ghost use Rattle.stage_transfer.specs.Changes.{with_may};
ghost use Rattle.stage_transfer.specs.Operations.{beside_new};
ghost use Rattle.stage_transfer.specs.Settings.{Setting};
ghost use Rattle.stage_transfer.specs.Stages.{finished};
ghost use Rattle.stage_views.specs.Drafts.{cut_with, IsDraft, IsDraftAt};
ghost use Rattle.stage_views.specs.Views.{IsSettingBy};

use crate::gathering::Gathering;
use crate::setting::StageSetting;
use access_paths::{Path, PathSet, Root};
use stage_facts::{PlainFact, PlainTuple};

/// A tuple whose paths were gathered. It does not have the normal form of a stage yet.
#[derive(Drop)]
pub struct Draft {
    pub unique: bool,
    pub state: u8,
    /// It notes whether must paths were left out.
    pub must: Gathering,
    pub may: bool,
    pub must_not: PathSet,
}

impl Draft {
    /// The tuple as it is.
    pub fn of(tuple: &PlainTuple) -> Draft
        ensures { IsDraft result tuple.now }
    {
        let must_not = Gathering::whole(&tuple.must_not);
        Draft {
            unique: tuple.unique,
            state: tuple.state,
            must: Gathering::whole(&tuple.must),
            may: tuple.may,
            must_not: must_not.set,
        }
    }

    /// Other cells may hold the object, too, if this is set.
    pub fn with_may(self, more: bool) -> Draft
        ensures { (t : Tuple) → IsDraft self t → IsDraft result (with_may more t) }
    {
        let Draft {
            unique,
            state,
            must,
            may,
            must_not,
        } = self;
        Draft {
            unique,
            state,
            must,
            may: may || more,
            must_not,
        }
    }

    /// The object is not the only one any more: the slot, if there is one, holds a new one.
    pub fn beside_new(self, target: Option<u32>) -> Draft
        ensures { (t : Tuple) → IsDraft self t → IsDraft result (beside_new target t) }
    {
        let Draft {
            unique: _,
            state,
            must,
            may,
            must_not,
        } = self;
        Draft {
            unique: false,
            state,
            must,
            may,
            must_not: with_slot(must_not, target),
        }
    }

    /// The tuple as a fact of the stage: in normal form, and with no more paths than a set may have. The second stage knows no paths, and the third
    /// no paths that do not refer to the object.
    pub fn finish(self, setting: &StageSetting<'_>) -> PlainFact
        ensures { (w : Setting) (t : Tuple) → IsSettingBy setting.now w → IsDraftAt setting.now.stage self t → fact_of result ≡ finished w (of_object t) }
    {
        let Draft {
            unique,
            state,
            must,
            may,
            must_not,
        } = self;
        let Gathering { set, dropped } = must;
        PlainFact::OfObject(match setting.stage {
            2 => without_paths(unique, state),
            3 => PlainTuple {
                unique,
                state,
                must: set,
                may: may || dropped,
                must_not: PathSet::empty(),
            },
            _ => PlainTuple {
                unique,
                state,
                must: set,
                may: may || dropped,
                must_not,
            },
        })
    }
}

/// The least paths of the set and of the slot, if there is one.
fn with_slot(set: PathSet, slot: Option<u32>) -> PathSet
    ensures { result ≡ cut_with slot set }
{
    match slot {
        None => set,
        Some(slot) => set.add(&Path::new(Root::Slot(slot))).set,
    }
}

/// A tuple of the second stage.
pub fn without_paths(unique: bool, state: u8) -> PlainTuple
    ensures { result ≡ record { unique = unique; state = state; must = []; may = true; must_not = [] } }
{
    PlainTuple {
        unique,
        state,
        must: PathSet::empty(),
        may: true,
        must_not: PathSet::empty(),
    }
}
