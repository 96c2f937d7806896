//! A case: a file of lines, each with a word that says what it is.
//!
//! - `#` begins a remark;
//! - `let NAME BYTES` gives bytes a name;
//! - `ask QUESTION BYTES` says what the rows after it ask, and of which class file: `$row` stands for the bytes of a row there;
//! - `row TITLE: BYTES` is a row, and has an answer, or several where a byte takes several values;
//! - `cuts TITLE: BYTES` is a row for each number of bytes that are cut from the front of these.

use crate::classes::notation::{NotationEnd, Pieces, bytes_of, values_in};
use crate::classes::question::{Question, answer, question_of};
use crate::classes::sweep::Sweep;
use anyhow::{Context, Result, bail};
use std::alloc::Global;
use std::ops::RangeInclusive;

/// What the rows ask, the class file in which their bytes stand, and the bytes that have names.
#[derive(Drop)]
struct Sheet {
    pieces: Pieces,
    question: Question,
    frame: String,
}

/// Prints the answer to each row of a case.
pub fn tell_case<R: Print>(rt: &R, alloc: Global, lines: &str) -> Result<()> {
    let mut sheet = Sheet {
        pieces: Pieces::new(alloc),
        question: Question::Class,
        frame: format!(in alloc; "$row")?,
    };
    for line in lines.lines() {
        if !line.is_empty() {
            let (word, rest) = parts(line, " ").context(format_args!("{line}"))?;
            tell_line(rt, alloc, &mut sheet, word, rest).context(format_args!("{line}"))?;
        }
    }
    Ok(())
}

/// Does what a line says that begins with a word.
fn tell_line<R: Print>(
    rt: &R,
    alloc: Global,
    sheet: &mut Sheet,
    word: &str,
    rest: &str,
) -> Result<()> {
    match word {
        "#" => Ok(()),
        "let" => Ok(name_bytes(alloc, sheet, rest)?),
        "ask" => Ok(ask(alloc, sheet, rest)?),
        "row" => tell_row(rt, alloc, sheet, rest),
        "cuts" => tell_cuts(rt, alloc, sheet, rest),
        _ => bail!("there are no such lines"),
    }
}

/// Gives bytes a name, as the rest of a line says.
fn name_bytes(alloc: Global, sheet: &mut Sheet, rest: &str) -> Result<(), NotationEnd> {
    let (name, bytes) = parts(rest, " ")?;
    let bytes = bytes_of(alloc, &sheet.pieces, bytes, 0)?;
    Ok(sheet.pieces.set(alloc, name, bytes)?)
}

/// Takes the question and the class file that the rest of a line names for those of the rows that follow.
fn ask(alloc: Global, sheet: &mut Sheet, rest: &str) -> Result<(), NotationEnd> {
    let (word, frame) = parts(rest, " ")?;
    sheet.question = question_of(word).ok_or(NotationEnd::Word)?;
    sheet.frame = String::from_str(alloc, frame)?;
    Ok(())
}

/// What stands before the first mark in a text, and what behind it.
fn parts<'a>(text: &'a str, mark: &str) -> Result<(&'a str, &'a str), NotationEnd> {
    text.split_once(mark).ok_or(NotationEnd::Word)
}

/// The answer to a row, in which a byte that takes several values has this one.
fn answer_at(
    alloc: Global,
    sheet: &mut Sheet,
    line: &str,
    value: u8,
) -> Result<String, NotationEnd> {
    let bytes = bytes_of(alloc, &sheet.pieces, line, value)?;
    answer_to(alloc, sheet, bytes)
}

/// The answer to the question of a case on the class file in which these bytes stand.
fn answer_to(alloc: Global, sheet: &mut Sheet, row: Vec<u8>) -> Result<String, NotationEnd> {
    sheet.pieces.set(alloc, "row", row)?;
    let bytes = bytes_of(alloc, &sheet.pieces, sheet.frame.as_str(), 0)?;
    Ok(answer(alloc, sheet.question, &bytes)?)
}

/// Prints the answer to a row, or those for the values of its byte that takes several.
fn tell_row<R: Print>(rt: &R, alloc: Global, sheet: &mut Sheet, rest: &str) -> Result<()> {
    let (title, line) = parts(rest, ": ")?;
    match values_in(line)? {
        Some((first, last)) => {
            println!(rt; "{title}:")?;
            tell_values(rt, alloc, sheet, line, first..=last)
        }
        None => tell_answer(rt, alloc, sheet, title, line),
    }
}

/// Prints the answer to a row.
fn tell_answer<R: Print>(
    rt: &R,
    alloc: Global,
    sheet: &mut Sheet,
    title: &str,
    line: &str,
) -> Result<()> {
    let answer = answer_at(alloc, sheet, line, 0)?;
    println!(rt; "{title}: {answer}")?;
    Ok(())
}

/// Prints the answers for each value of the byte of a row that takes several.
fn tell_values<R: Print>(
    rt: &R,
    alloc: Global,
    sheet: &mut Sheet,
    line: &str,
    values: RangeInclusive<u8>,
) -> Result<()> {
    let mut sweep = Sweep::new();
    for value in values {
        add_value(rt, alloc, sheet, &mut sweep, line, value)?;
    }
    sweep.print(rt)
}

/// Adds the answer for a value of the byte of a row that takes several.
fn add_value<R: Print>(
    rt: &R,
    alloc: Global,
    sheet: &mut Sheet,
    sweep: &mut Sweep,
    line: &str,
    value: u8,
) -> Result<()> {
    let answer = answer_at(alloc, sheet, line, value)?;
    let label = format!(in alloc; "{value:02x}")?;
    sweep.add(rt, label, answer)
}

/// Prints the answers for each number of bytes from the front of a row.
fn tell_cuts<R: Print>(rt: &R, alloc: Global, sheet: &mut Sheet, rest: &str) -> Result<()> {
    let (title, line) = parts(rest, ": ")?;
    println!(rt; "{title}:")?;
    let whole = bytes_of(alloc, &sheet.pieces, line, 0)?;
    tell_fronts(rt, alloc, sheet, &whole)
}

/// Prints the answers for each number of bytes from the front of these.
fn tell_fronts<R: Print>(rt: &R, alloc: Global, sheet: &mut Sheet, whole: &[u8]) -> Result<()> {
    let mut sweep = Sweep::new();
    for kept in 0..whole.len() {
        add_front(rt, alloc, sheet, &mut sweep, &whole[..kept])?;
    }
    sweep.print(rt)
}

/// Adds the answer for bytes from the front of a row.
fn add_front<R: Print>(
    rt: &R,
    alloc: Global,
    sheet: &mut Sheet,
    sweep: &mut Sweep,
    front: &[u8],
) -> Result<()> {
    let kept = front.len();
    let answer = answer_to(alloc, sheet, Vec::from_slice(alloc, front)?)?;
    let label = format!(in alloc; "{kept}")?;
    sweep.add(rt, label, answer)
}
