//! Members by class, name and descriptor: from the key of a member to its place in a list.

ghost use Rattle.std.specs.Prelude.{◌≡◌, ◌⊎◌, ◌<◌, ◌^◌, ◌↔◌, [], ◌∷◌, ◌++◌, length, All, Err, Some, IsTrue, IfSome, IfNone, OnOk, OnErr};
ghost use Rattle.failure.specs.declared.Failure.TheVariants.{Cause};
ghost use Rattle.program_index.specs.FirstPlaces.{IsFirstPlace, StandsNowhere};
ghost use Rattle.program_index.specs.KeyPlaces.{HasTexts, IsSpelledLast};
ghost use Rattle.program_index.specs.MemberKeys.{key_of, key_texts};
ghost use Rattle.program_index.specs.Limits.{AreTooMany, too_many};
ghost use Rattle.program_index.specs.TextNumbers.{different, with_texts, Extends};

use crate::first_places::FirstPlaces;
use crate::index_failure::IndexFailure;
use crate::member_key::MemberKey;
use crate::numbered_key::NumberedKey;
use crate::text_index::TextIndex;
use std::alloc::Global;
use std::marker::Model;

/// Members in the order of their insertion, which may have a key more than once. Contracts see the list of the keys.
#[derive(Drop)]
pub struct MemberIndex {
    texts: TextIndex,
    places: FirstPlaces,
}

impl Model for MemberIndex {
    ghost use Rattle.std.specs.Prelude.{List, map};
    ghost use Rattle.program_index.specs.MemberKeys.{Key};
    ghost use Rattle.program_index.specs.KeyPlaces.{spelled, AreSpelled};

    ghost Value = { List Key };

    ghost view = { λ s. map (spelled s.texts) s.places };

    ghost invariant = { λ s. AreSpelled s.texts s.places };
}

impl MemberIndex {
    /// An index of no member. It takes no memory.
    pub fn new(alloc: Global) -> Self
        ensures { result ≡ [] }
    {
        MemberIndex {
            texts: TextIndex::new(alloc),
            places: FirstPlaces::new(alloc),
        }
    }

    /// How many members there are.
    pub fn len(&self) -> usize
        ensures count { result ≡ length self.now }
        ensures small { result < 2 ^ 32 }
    {
        self.places.len()
    }

    /// Whether there is no member.
    pub fn is_empty(&self) -> bool
        ensures { IsTrue result ↔ (length self.now ≡ 0) }
    {
        self.len() == 0
    }

    /// Adds a member last, whose place is the number of members before. Its texts are copied, if no member before has them.
    ///
    /// The failure is `TooMany` where there are 2^32 - 1 members, or as many texts, and else out of memory.
    pub fn push(&mut self, key: MemberKey<'_>) -> Result<(), IndexFailure>
        ensures ok { OnOk result (self.new ≡ self.old ++ key_of key.entry ∷ []) }
        ensures err { OnErr result (self.new ≡ self.old) }
        ensures too_many { result ≡ Err (Cause too_many)
            → AreTooMany self.old ⊎ AreTooMany (different (key_texts (self.old ++ key_of key.entry ∷ []))) }
    {
        let count = self.texts.len();
        if let Err(error) = add_spelled(&mut self.texts, &mut self.places, key) {
            self.texts.truncate(count);
            return Err(error);
        }
        Ok(())
    }

    /// The first place at which a key stands. It takes no memory, and time linear in the key's texts.
    pub fn first(&self, key: MemberKey<'_>) -> Option<u32>
        ensures found { IfSome result (IsFirstPlace self.now (key_of key.entry)) }
        ensures none { IfNone result (StandsNowhere self.now (key_of key.entry)) }
    {
        let name = self.texts.find(key.signature.name)?;
        let descriptor = self.texts.find(key.signature.descriptor)?;
        self.places.first(&NumberedKey {
            class: key.class,
            name,
            descriptor,
        })
    }
}

/// Adds a key last, and its texts, if they are not there. An error may leave texts.
fn add_spelled(
    texts: &mut TextIndex,
    places: &mut FirstPlaces,
    key: MemberKey<'_>,
) -> Result<(), IndexFailure>
    requires { All (HasTexts texts.old) places.old }
    ensures texts { OnOk result (texts.new ≡ with_texts texts.old (key.entry.signature.name.now ∷ key.entry.signature.descriptor.now ∷ [])) }
    ensures places { OnOk result (IsSpelledLast texts.new places.old places.new (key_of key.entry)) }
    ensures extends { Extends texts.old texts.new }
    ensures err { OnErr result (places.new ≡ places.old) }
    ensures too_many { result ≡ Err (Cause too_many) → AreTooMany places.old
        ⊎ AreTooMany (with_texts texts.old (key.entry.signature.name.now ∷ key.entry.signature.descriptor.now ∷ [])) }
{
    let name = texts.intern(key.signature.name)?;
    let descriptor = texts.intern(key.signature.descriptor)?;
    places.push(NumberedKey {
        class: key.class,
        name,
        descriptor,
    })
}
