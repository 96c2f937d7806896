//! The entries of a table of handlers that cover an instruction which is reached, and where the entries stand in the file.

ghost use Rattle.std.specs.Prelude.{◌≡◌, ◌↔◌, ◌<◌, ◌≤◌, ◌+◌, ◌*◌, ◌^◌, length, All, IsTrue, IfOk, IfSome, IfNone, Ok, Some, slice_get};
ghost use Rattle.std.specs.List.{AllZip};
ghost use Rattle.flow_graph.specs.declared.steps.GraphStep.{GraphStep};
ghost use Rattle.flow_graph.specs.Flows.{covering};
ghost use Rattle.jvm_model.specs.declared.class_file.Member.{Member};
ghost use Rattle.jvm_model.specs.declared.code.Code.{Code};
ghost use Rattle.jvm_model.specs.Code.{CodeBody, HasCode};
ghost use Rattle.jvm_model.specs.Soundness.{IsChecked};
ghost use Rattle.code_reader.specs.CodeReading.{ReadsCode};
ghost use Rattle.lowering_handlers.specs.Catches.{IsCatchOf};
ghost use Rattle.lowering_handlers.specs.declared.catches.Catch.TheVariants.{Unknown};
ghost use Rattle.lowering_handlers.specs.Entries.{AreKnown, AreUsedMarks, IsFirstUnknown, MarksEach, entry_offset, fifth_to_eighth};

use crate::catches::Catch;
use flow_graph::GraphStep;
use jvm_model::sound::first_code;
use jvm_model::{ClassFile, Code, Handler, PoolEntry};
use program_model::program::Program;
use std::alloc::{AllocError, Global};

/// The place of the first entry that covers an instruction which is reached, and takes a class that is not in the program.
pub fn first_unknown(
    alloc: Global,
    program: &Program,
    pool: &[PoolEntry],
    handlers: &[Handler],
    catches: &[Catch],
    steps: &[GraphStep],
) -> Result<Option<usize>, AllocError>
    requires catches { AllZip (IsCatchOf program.now pool.now) handlers.now catches.now }
    requires covering { All (λ (s : GraphStep). s.handlers ≡ covering handlers.now s.offset) steps.now }
    ensures found { IfOk result (λ place. IfSome place (IsFirstUnknown program.now pool.now handlers.now steps.now)) }
    ensures none { IfOk result (λ place. IfNone place (AreKnown program.now pool.now handlers.now steps.now)) }
{
    program.well_formed();
    let used = used_entries(alloc, handlers.len(), steps)?;
    for place in 0..handlers.len() {
        if used[place] && is_unknown(catches[place]) {
            return Ok(Some(place));
        }
    }
    Ok(None)
}

/// Whether an entry takes a class that is not in the program.
fn is_unknown(catch: Catch) -> bool
    ensures { IsTrue result ↔ (catch ≡ Unknown) }
{
    match catch {
        Catch::Unknown => true,
        Catch::Each | Catch::OfClass(_) => false,
    }
}

/// For each of so many entries whether it covers an instruction that is reached.
fn used_entries(alloc: Global, count: usize, steps: &[GraphStep]) -> Result<Vec<bool>, AllocError>
    requires { All (λ (s : GraphStep). All (λ place. place < count) s.handlers) steps.now }
    ensures { IfOk result (λ used. AreUsedMarks count steps.now used.items) }
{
    let mut used = vec![in alloc; false; count]?;
    for step in steps {
        mark_each(&mut used, step.handlers.as_slice());
    }
    Ok(used)
}

/// Marks the entries at these places.
fn mark_each(used: &mut [bool], places: &[u32])
    requires { All (λ place. place < length used.old) places.now }
    ensures { MarksEach used.old places.now used.new }
{
    for place in places {
        used[*place as usize] = true;
    }
}

/// The file offset of the entry at a place of the table of a method's handlers.
pub fn entry_offset(class: &ClassFile, method: usize, code: &Code, place: usize) -> u32
    requires checked { IsChecked class.now }
    requires code { ReadsCode class.now method (Ok code.now) }
    requires there { place < length code.now.handlers }
    ensures { (m : Member) (body : CodeBody) → slice_get class.now.methods method ≡ Some m → HasCode class.now m body → result ≡ entry_offset code.now.at body place }
{
    let code_length = code_length(class, method);
    code.at + code_length + 2 + 8 * place as u32
}

/// The length of the code, which its attribute says after two limits (JVMS 4.7.3).
fn code_length(class: &ClassFile, method: usize) -> u32
    requires checked { IsChecked class.now }
    requires code { (code : Code) × ReadsCode class.now method (Ok code) }
    ensures said { (m : Member) (body : CodeBody) → slice_get class.now.methods method ≡ Some m → HasCode class.now m body → result ≡ length body.bytes }
    // The table of handlers stands in the file.
    ensures fits { (code : Code) → ReadsCode class.now method (Ok code) → code.at + result + 2 + 8 * length code.handlers < 2 ^ 32 }
{
    let member = &class.methods.as_slice()[method];
    let Some(attribute) = first_code(class.pool.as_slice(), member.attributes.as_slice()) else {
        unreachable!()
    };
    length_said(attribute.body.as_slice())
}

/// The number of four bytes that stands behind the first four.
fn length_said(body: &[u8]) -> u32
    requires { 8 ≤ length body.now }
    ensures { result ≡ fifth_to_eighth body.now }
{
    u32::from_be_bytes([body[4], body[5], body[6], body[7]])
}
