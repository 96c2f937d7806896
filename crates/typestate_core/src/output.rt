//! Writing a text to a sink, line by line: each line as a piece of its own, repeated from where the sink stopped. A write that fails ends it.

ghost use Rattle.std.specs.Prelude.{◌≡◌, ◌<◌, ◌≤◌, [], ◌∷◌, length, take, drop, OnOk, OnErr};
ghost use Rattle.ts_outside.specs.Counts.{Rose};
ghost use Rattle.typestate_core.specs.Output.{TakesAll, TakesFront, Hands, HandsInVain, lines_in};

use ts_outside::{Sink, SinkFailure};

/// Writes a line: each call hands the sink all that is left of it.
fn write_line<S: Sink>(out: &mut S, line: &[u8]) -> Result<(), SinkFailure>
    requires { 0 < length line.now }
    ensures all { OnOk result (TakesAll (S.taken out.old) (S.taken out.new) line.now) }
    ensures front { OnErr result (TakesFront (S.taken out.old) (S.taken out.new) line.now) }
    ensures pieces { OnOk result (Hands (S.handed out.old) (S.handed out.new) (line.now ∷ []) []) }
    ensures pieces_front { OnErr result (HandsInVain (S.handed out.old) (S.handed out.new) (line.now ∷ [])) }
    ensures failed { OnErr result (Rose (S.faults out.old) (S.faults out.new)) }
    ensures no_fault { OnOk result (S.faults out.new ≡ S.faults out.old) }
    ensures never_falls { S.faults out.old ≤ S.faults out.new }
{
    let mut rest = line;
    while !rest.is_empty() {
        let count = out.write(rest)?;
        let (_taken, left) = rest.split_at(count);
        rest = left;
    }
    Ok(())
}

/// Where the first line of a text ends: after its newline, or with the text.
pub(crate) fn line_end(text: &[u8]) -> usize
    requires { 0 < length text.now }
    ensures some { 0 < result }
    ensures within { result ≤ length text.now }
    ensures first { lines_in text.now ≡ take result text.now ∷ lines_in (drop result text.now) }
{
    for (place, byte) in text.iter().enumerate() {
        if *byte == b'\n' {
            return place + 1;
        }
    }
    text.len()
}

/// Writes the lines of a text in order, and stops where a write fails.
pub(crate) fn write_lines<S: Sink>(out: &mut S, text: &[u8]) -> Result<(), SinkFailure>
    ensures all { OnOk result (TakesAll (S.taken out.old) (S.taken out.new) text.now) }
    ensures front { OnErr result (TakesFront (S.taken out.old) (S.taken out.new) text.now) }
    ensures pieces { OnOk result (Hands (S.handed out.old) (S.handed out.new) (lines_in text.now) []) }
    ensures pieces_front { OnErr result (HandsInVain (S.handed out.old) (S.handed out.new) (lines_in text.now)) }
    ensures failed { OnErr result (Rose (S.faults out.old) (S.faults out.new)) }
    ensures no_fault { OnOk result (S.faults out.new ≡ S.faults out.old) }
    ensures never_falls { S.faults out.old ≤ S.faults out.new }
{
    let mut rest = text;
    while !rest.is_empty() {
        let (line, others) = rest.split_at(line_end(rest));
        write_line(out, line)?;
        rest = others;
    }
    Ok(())
}
