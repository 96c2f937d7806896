//! Which members of a class have the name and the descriptor of an earlier one (JVMS 4.5, 4.6). Members are told apart
//! by the two numbers of their names and descriptors.

ghost use Rattle.std.specs.Prelude.{◌≡◌, ◌||◌, ◌++◌, false, [], ◌∷◌, IfOk, List, OnOk};
ghost use Rattle.std.specs.HashSet.{contains};
ghost use Rattle.std.specs.Option.{option_map_or};
ghost use Rattle.jvm_model.specs.declared.class_file.Member.{Member};
ghost use Rattle.jvm_model.specs.declared.pool.PoolEntry.{PoolEntry};
ghost use Rattle.classfile_reader.specs.TextNumbers.{AreNumbers, StayNumbered};
ghost use Rattle.classfile_reader.specs.Repeats.{signature_eq, AreEarlier, AreRepeats, IsRepeat, IsSignature};

use crate::soundness::text_numbers::TextNumbers;
use jvm_model::class_file::Member;
use jvm_model::pool::PoolEntry;
use std::alloc::{AllocError, Global};
use std::collections::HashSet;

/// The numbers of a name and a descriptor.
#[derive(Clone, Copy, PartialEq, Eq, Hash, Drop)]
struct NumberedSignature {
    name: u16,
    descriptor: u16,
}

/// The numbers of a member's name and descriptor, if both are texts.
fn signature_of<'pool>(
    numbers: &mut TextNumbers<'pool>,
    pool: &'pool [PoolEntry],
    member: &Member,
) -> Result<Option<NumberedSignature>, AllocError>
    requires { AreNumbers pool.now numbers.old }
    ensures signature { IfOk result (IsSignature pool.now numbers.new member.now) }
    ensures known { OnOk result (AreNumbers pool.now numbers.new) }
    ensures stay { OnOk result (StayNumbered numbers.old numbers.new) }
{
    let Some(name) = numbers.number_at(pool, member.name)? else {
        return Ok(None);
    };
    let Some(descriptor) = numbers.number_at(pool, member.descriptor)? else {
        return Ok(None);
    };
    Ok(Some(NumberedSignature { name, descriptor }))
}

/// Whether a signature, if there is one, is among those that were seen, to which it is added.
fn was_seen(
    seen: &mut HashSet<NumberedSignature>,
    signature: Option<NumberedSignature>,
) -> Result<bool, AllocError>
    ensures before { IfOk result (λ was. was ≡ option_map_or (contains signature_eq seen.old) signature false) }
    ensures after { OnOk result ((other : NumberedSignature) → contains signature_eq seen.new other
        ≡ (contains signature_eq seen.old other || option_map_or (λ s. signature_eq s other) signature false)) }
{
    match signature {
        Some(signature) => {
            let added = seen.insert(signature)?;
            Ok(!added)
        }
        None => Ok(false),
    }
}

/// The members of a class up to one of them, by the numbers of their names and descriptors.
#[derive(Drop)]
struct EarlierMembers<'pool> {
    numbers: TextNumbers<'pool>,
    signatures: HashSet<NumberedSignature>,
}

impl<'pool> EarlierMembers<'pool> {
    /// No member.
    fn new(alloc: Global) -> Self
        ensures numbers { (pool : List PoolEntry) → AreNumbers pool result.numbers }
        ensures none { (pool : List PoolEntry) → AreEarlier pool [] result.numbers result.signatures }
    {
        EarlierMembers {
            numbers: TextNumbers::new(alloc),
            signatures: HashSet::new(alloc),
        }
    }

    /// Adds the next member. Says whether one of those before it has the same name and the same descriptor, as bytes.
    fn add(&mut self, pool: &'pool [PoolEntry], member: &Member) -> Result<bool, AllocError>
        requires { AreNumbers pool.now self.old.numbers }
        ensures numbers { OnOk result (AreNumbers pool.now self.new.numbers) }
        ensures repeat { IfOk result (λ answer. (earlier : List Member) → AreEarlier pool.now earlier self.old.numbers self.old.signatures
            → IsRepeat pool.now earlier member.now answer) }
        ensures added { OnOk result ((earlier : List Member) → AreEarlier pool.now earlier self.old.numbers self.old.signatures
            → AreEarlier pool.now (earlier ++ member.now ∷ []) self.new.numbers self.new.signatures) }
    {
        let signature = signature_of(&mut self.numbers, pool, member)?;
        was_seen(&mut self.signatures, signature)
    }
}

/// For each member, whether an earlier one has the same name and the same descriptor, as bytes. Nothing is read for fewer
/// than two members.
pub(crate) fn repeats(
    alloc: Global,
    pool: &[PoolEntry],
    members: &[Member],
) -> Result<Vec<bool>, AllocError>
    ensures { IfOk result (λ answers. AreRepeats pool.now members.now answers.items) }
{
    if members.len() < 2 {
        return vec![in alloc; false; members.len()];
    }
    let mut earlier = EarlierMembers::new(alloc);
    let mut answers = Vec::new(alloc);
    for member in members {
        let answer = earlier.add(pool, member)?;
        answers.push(answer)?;
    }
    Ok(answers)
}
