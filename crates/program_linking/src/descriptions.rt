//! What stubs say of the methods of one class, each method once.

ghost use Rattle.std.specs.Prelude.{◌≡◌, [], ◌∷◌, ◌++◌, map, OnOk, IfOk, IfErr};
ghost use Rattle.program_linking.specs.Patching.{description_of, signature_key};
ghost use Rattle.program_linking.specs.TooLarge.{AreTooManyDescriptions, TellsTooMany};
ghost use Rattle.program_index.specs.MemberKeys.{key_of};
ghost use Rattle.jvm_model.specs.Linking.{with_description, with_descriptions, descriptions};
ghost use Rattle.jvm_model.specs.Stubs.{stub_signature};

use crate::keys::{signature_key, stub_signature};
use jvm_model::{Name, StubClass, StubMethod};
use program_index::index_failure::IndexFailure;
use program_index::member_index::MemberIndex;
use program_index::member_key::MemberKey;
use std::alloc::Global;
use std::marker::Model;

/// What a stub says of a method, and the file that says it.
#[derive(Clone, Copy, Debug)]
pub struct Described<'a> {
    pub method: &'a StubMethod,
    pub file: &'a Name,
}

/// Descriptions in the order of their methods, which are found by name and descriptor. Contracts see the list.
#[derive(Drop)]
pub struct Descriptions<'a> {
    items: Vec<Described<'a>>,
    index: MemberIndex,
}

impl<'a> Model for Descriptions<'a> {
    ghost use Rattle.std.specs.Prelude.{◌≡◌, List, map};
    ghost use Rattle.jvm_model.specs.Linking.{Description};
    ghost use Rattle.program_linking.specs.Patching.{description_of, method_key};

    ghost Value = { List Description };

    ghost view = { λ s. map description_of s.items.items };

    ghost invariant = { λ s. s.index ≡ map method_key (map description_of s.items.items) };
}

/// The key of a description among those of one class.
fn key_of_method(method: &StubMethod) -> MemberKey<'_>
    ensures { key_of result ≡ signature_key 0 (stub_signature method.entry.now) }
{
    signature_key(0, stub_signature(method))
}

impl<'a> Descriptions<'a> {
    /// No description. It takes no memory.
    pub fn new(alloc: Global) -> Self
        ensures { result ≡ [] }
    {
        Descriptions {
            items: Vec::new(alloc),
            index: MemberIndex::new(alloc),
        }
    }

    /// The descriptions, in order.
    pub fn as_slice(&self) -> &[Described<'a>]
        ensures { map description_of result.now ≡ self.now }
    {
        self.items.as_slice()
    }

    /// Adds a description last.
    fn push(&mut self, described: Described<'a>) -> Result<(), IndexFailure>
        ensures pushed { OnOk result (self.new ≡ self.old ++ description_of described.entry ∷ []) }
        ensures too_many { IfErr result (TellsTooMany (AreTooManyDescriptions (self.old ++ description_of described.entry ∷ []))) }
    {
        self.items.push(described)?;
        if let Err(error) = self.index.push(key_of_method(described.method)) {
            self.items.pop();
            return Err(error);
        }
        Ok(())
    }

    /// Adds a description. It takes the place of an earlier one of its name and descriptor, and else comes last. The time is
    /// linear in these texts. The failure is `TooMany` where the descriptions, or the texts in them, have no more numbers.
    pub fn add(&mut self, described: Described<'a>) -> Result<(), IndexFailure>
        ensures added { OnOk result (self.new ≡ with_description self.old (description_of described.entry)) }
        ensures too_many { IfErr result (TellsTooMany (AreTooManyDescriptions (with_description self.old (description_of described.entry)))) }
    {
        match self.index.first(key_of_method(described.method)) {
            None => self.push(described),
            Some(place) => {
                self.items[place as usize] = described;
                Ok(())
            }
        }
    }

    /// Adds all that a stub says, in its order. The errors are those of `add`.
    pub fn add_all(&mut self, stub: &'a StubClass) -> Result<(), IndexFailure>
        ensures added { OnOk result (self.new ≡ with_descriptions self.old (descriptions stub.entry.now)) }
        ensures too_many { IfErr result (TellsTooMany (AreTooManyDescriptions (with_descriptions self.old (descriptions stub.entry.now)))) }
    {
        for method in stub.methods.as_slice() {
            self.add(Described {
                method,
                file: &stub.file,
            })?;
        }
        Ok(())
    }

    /// What a stub says, in its order, also where it says it twice. The errors are those of `add`.
    pub fn of(alloc: Global, stub: &'a StubClass) -> Result<Self, IndexFailure>
        ensures all { IfOk result (λ all. all ≡ descriptions stub.entry.now) }
        ensures too_many { IfErr result (TellsTooMany (AreTooManyDescriptions (descriptions stub.entry.now))) }
    {
        let mut all = Descriptions::new(alloc);
        for method in stub.methods.as_slice() {
            all.push(Described {
                method,
                file: &stub.file,
            })?;
        }
        Ok(all)
    }
}
