//! The members of one kind of all classes of a program by number: class by class, and in a class in the order of the file. An
//! index has them by class, name and descriptor, and a list has the place of each.

ghost use Rattle.std.specs.Prelude.{◌≡◌, ◌≢◌, ◌⊎◌, ℕ, ◌+◌, ◌<◌, ◌≤◌, ◌^◌, [], ◌∷◌, ◌++◌, AllPairs, Err, Some, flat_map, length, map, slice_get, IfOk, IfSome, IfNone, OnOk};
ghost use Rattle.jvm_model.specs.LinkedPrograms.{class_names};
ghost use Rattle.jvm_model.specs.Linking.{program_from};
ghost use Rattle.jvm_model.specs.Lookups.{lent_signature};
ghost use Rattle.failure.specs.declared.Failure.TheVariants.{Cause};
ghost use Rattle.program_index.specs.Limits.{too_many};
ghost use Rattle.program_model.specs.Declarations.{Declaration, IsDeclared, IsMemberView};
ghost use Rattle.program_model.specs.MemberLists.{IsTable, AreTooManyKeys, AreTooManyMembers, key_in, places_in};
ghost use Rattle.program_model.specs.Numbers.{name_at, IsClassNumber};

use crate::member_kind::MemberKind;
use crate::member_view::MemberView;
use jvm_model::lookup::Signature;
use jvm_model::{ClassNo, Origin};
use program_index::index_failure::IndexFailure;
use program_index::member_index::MemberIndex;
use program_index::member_key::MemberKey;
use program_index::text_index::next_number;
use std::alloc::Global;

/// Where a member stands: its class, and its place among the members of the class.
#[derive(Clone, Copy, Debug)]
pub struct MemberPlace {
    pub class: ClassNo,
    pub place: u32,
}

/// The members of one kind: their keys, and their places.
#[derive(Drop)]
pub struct MemberTable {
    pub index: MemberIndex,
    pub places: Vec<MemberPlace>,
}

impl MemberTable {
    /// The members of the classes, which have their numbers by their places in the order.
    ///
    /// The failure is `TooMany` where the members, or their different texts, are 2^32 - 1 or more, and else out of memory.
    pub fn of<K: MemberKind>(alloc: Global, order: &[Origin]) -> Result<MemberTable, IndexFailure>
        requires { length order.now < 2 ^ 32 }
        ensures table { IfOk result (IsTable K.members order.now) }
        ensures too_many { result ≡ Err (Cause too_many) → AreTooManyMembers (flat_map K.members order.now) }
    {
        let mut table = MemberTable {
            index: MemberIndex::new(alloc),
            places: Vec::new(alloc),
        };
        for (class, origin) in order.iter().enumerate() {
            table.add_all::<K>(origin, ClassNo(class as u32))?;
        }
        Ok(table)
    }

    /// Adds the members of a class last.
    fn add_all<K: MemberKind>(
        &mut self,
        origin: &Origin,
        class: ClassNo,
    ) -> Result<(), IndexFailure>
        ensures keys { OnOk result (self.new.index ≡ self.old.index ++ map (key_in class.0) (K.members origin.now)) }
        ensures places { OnOk result (self.new.places.items ≡ self.old.places.items ++ places_in class.0 (length (K.members origin.now))) }
        ensures too_many { result ≡ Err (Cause too_many) → AreTooManyKeys (self.old.index ++ map (key_in class.0) (K.members origin.now)) }
    {
        for place in 0..K::count(origin) {
            self.add(K::view(origin, place, class), place)?;
        }
        Ok(())
    }

    /// Adds a member last, which stands at a place of its class.
    fn add(&mut self, member: MemberView<'_>, place: usize) -> Result<(), IndexFailure>
        ensures key { OnOk result (self.new.index ≡ self.old.index
            ++ record { class = member.entry.class.0; signature = lent_signature member.entry.signature } ∷ []) }
        ensures place { OnOk result (self.new.places.items ≡ self.old.places.items ++ record { class = member.entry.class; place = place } ∷ []) }
        ensures too_many { result ≡ Err (Cause too_many) → (2 ^ 32 ≤ place + 1) ⊎ AreTooManyKeys (self.old.index
            ++ record { class = member.entry.class.0; signature = lent_signature member.entry.signature } ∷ []) }
    {
        let number = next_number(place)?;
        self.index.push(MemberKey {
            class: member.class,
            signature: member.signature,
        })?;
        self.places.push(MemberPlace {
            class: member.class,
            place: number,
        })?;
        Ok(())
    }

    /// The number of the member of a name and a descriptor that the class declares. It takes no memory.
    pub fn first<K: MemberKind>(
        &self,
        order: &[Origin],
        class: ClassNo,
        signature: Signature<'_>,
    ) -> Option<u32>
        requires table { IsTable K.members order.now self.now }
        requires differ { AllPairs (λ x y. x ≢ y) (class_names (program_from order.now)) }
        requires there { IsClassNumber (program_from order.now) class.0 }
        ensures found { IfSome result (IsDeclared (flat_map K.members order.now) (name_at (program_from order.now) class.0) (lent_signature signature.entry)) }
        ensures none { IfNone result ((n : ℕ) → IsDeclared (flat_map K.members order.now) (name_at (program_from order.now) class.0) (lent_signature signature.entry) n → ⊥) }
    {
        self.index.first(MemberKey { class, signature })
    }

    /// The member of a number.
    pub fn view<'a, K: MemberKind>(&self, order: &'a [Origin], number: u32) -> MemberView<'a>
        requires table { IsTable K.members order.now self.now }
        requires there { number < length (flat_map K.members order.now) }
        ensures { (d : Declaration) → slice_get (flat_map K.members order.now) number ≡ Some d → IsMemberView (program_from order.now) d result }
    {
        let at = self.places[number as usize];
        K::view(&order[at.class.0 as usize], at.place as usize, at.class)
    }
}
