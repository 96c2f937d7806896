//! The patches among stubs, found by the name of their class.

ghost use Rattle.std.specs.Prelude.{◌≡◌, [], ◌+◌, ◌<◌, ◌≤◌, map, filter, length, Some, slice_get, IfOk, OnOk, IfErr};
ghost use Rattle.program_index.specs.Limits.{AreTooMany};
ghost use Rattle.program_linking.specs.Patching.{is_patch_stub, patch_one, patches_for};
ghost use Rattle.program_linking.specs.PatchLists.{AreListed, lent_lists, PatchGoes, PlaceGoes};
ghost use Rattle.program_linking.specs.TooLarge.{TellsTooMany};

use jvm_model::StubClass;
use program_index::index_failure::IndexFailure;
use program_index::text_index::TextIndex;
use std::alloc::Global;
use std::marker::Model;

/// The patches among stubs. Contracts see the stubs.
#[derive(Drop)]
pub struct Patches<'a> {
    stubs: &'a [StubClass],
    names: TextIndex,
    lists: Vec<Vec<&'a StubClass>>,
}

impl<'a> Model for Patches<'a> {
    ghost use Rattle.std.specs.Prelude.{List};
    ghost use Rattle.jvm_model.specs.declared.stub.StubClass.{StubClass};
    ghost use Rattle.program_linking.specs.PatchLists.{AreListed, lent_lists};

    ghost Value = { List StubClass };

    ghost view = { λ p. p.stubs.now };

    ghost invariant = { λ p. AreListed p.stubs.now p.names (lent_lists p.lists.items) };
}

impl<'a> Patches<'a> {
    /// The patches among stubs. The time is linear in the texts of their names. The failure is `TooMany` only where there are 2^32 - 1
    /// patches or more.
    pub fn new(alloc: Global, stubs: &'a [StubClass]) -> Result<Self, IndexFailure>
        ensures patches { IfOk result (λ patches. patches ≡ stubs.entry.now) }
        ensures too_many { IfErr result (TellsTooMany (AreTooMany (filter is_patch_stub stubs.entry.now))) }
    {
        let mut names = TextIndex::new(alloc);
        let mut lists = Vec::new(alloc);
        add_patches(alloc, &mut names, &mut lists, stubs)?;
        Ok(Patches {
            stubs,
            names,
            lists,
        })
    }

    /// The patches of the class of a name, in the order of the stubs. It takes no memory, and time linear in the name.
    pub fn of(&self, name: &[u8]) -> &[&'a StubClass]
        ensures { map (λ s. s.now) result.now ≡ patches_for name.now self.now }
    {
        match self.names.find(name) {
            Some(place) => self.lists[place as usize].as_slice(),
            None => &[],
        }
    }
}

/// Adds the patches among stubs to lists, of which there are none yet.
fn add_patches<'a>(
    alloc: Global,
    names: &mut TextIndex,
    lists: &mut Vec<Vec<&'a StubClass>>,
    stubs: &'a [StubClass],
) -> Result<(), IndexFailure>
    requires names { names.old ≡ [] }
    requires lists { lists.old.items ≡ [] }
    ensures listed { OnOk result (AreListed stubs.entry.now names.new (lent_lists lists.new.items)) }
    ensures too_many { IfErr result (TellsTooMany (AreTooMany (filter is_patch_stub stubs.entry.now))) }
{
    for stub in stubs {
        add_patch(alloc, names, lists, stub)?;
    }
    Ok(())
}

/// Adds a stub, if it is a patch, to the list of its name.
fn add_patch<'a>(
    alloc: Global,
    names: &mut TextIndex,
    lists: &mut Vec<Vec<&'a StubClass>>,
    stub: &'a StubClass,
) -> Result<(), IndexFailure>
    requires { length lists.old.items ≡ length names.old }
    ensures goes { OnOk result (PatchGoes stub.entry.now names.old (lent_lists lists.old.items) names.new (lent_lists lists.new.items)) }
    ensures count { OnOk result (length names.new ≤ length names.old + length (patch_one stub.entry.now)) }
    ensures too_many { IfErr result (TellsTooMany (AreTooMany names.old)) }
{
    if !stub.is_patch {
        return Ok(());
    }
    let place = list_of(alloc, names, lists, stub.name.as_slice())?;
    lists[place].push(stub)?;
    Ok(())
}

/// The place of the list of a name, which is a new one if there is none.
fn list_of<'a>(
    alloc: Global,
    names: &mut TextIndex,
    lists: &mut Vec<Vec<&'a StubClass>>,
    name: &[u8],
) -> Result<usize, IndexFailure>
    requires { length lists.old.items ≡ length names.old }
    ensures stands { IfOk result (λ place. slice_get names.new place ≡ Some name.now) }
    ensures within { IfOk result (λ place. place < length lists.new.items) }
    ensures kept { OnOk result (PlaceGoes names.old (lent_lists lists.old.items) names.new (lent_lists lists.new.items)) }
    ensures count { OnOk result (length names.new ≤ length names.old + 1) }
    ensures too_many { IfErr result (TellsTooMany (AreTooMany names.old)) }
{
    let place = names.intern(name)? as usize;
    if place == lists.len() {
        lists.push(Vec::new(alloc))?;
    }
    Ok(place)
}
