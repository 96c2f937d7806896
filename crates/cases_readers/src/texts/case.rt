//! A case: a file of lines, each with a word that says what it is.
//!
//! - `#` begins a remark;
//! - `ask QUESTION` says what the rows after it ask;
//! - `text` begins the text that the rows after it change, and each `|` behind it is a line of that text;
//! - `row TITLE` begins a row, which has one answer: on the text, as the lines behind the row change it;
//! - `-` is a line that is taken out of the text, and `+` one that comes in its place: lines that follow one another are replaced
//!   together, where they first stand. A `-` behind a `+` begins the next change;
//! - `pad COUNT` adds spaces at the end, up to so many bytes.

use crate::texts::question::{Question, answer, question_of};
use crate::texts::row::{CaseEnd, Row};
use anyhow::{Context, Result};
use std::alloc::Global;

/// What the rows ask, the text that they change, and the row that was begun.
#[derive(Drop)]
struct Sheet {
    question: Question,
    text: String,
    row: Option<Row>,
}

/// Prints the answer to each row of a case.
pub fn tell_case<R: Print>(rt: &R, alloc: Global, lines: &str) -> Result<()> {
    let mut sheet = Sheet {
        question: Question::Property,
        text: String::new(alloc),
        row: None,
    };
    for line in lines.lines() {
        let (word, rest) = line.split_once(' ').unwrap_or((line, ""));
        take_line(rt, alloc, &mut sheet, word, rest).context(format_args!("{line}"))?;
    }
    tell_row(rt, alloc, &mut sheet)
}

/// Does what a line says that begins with a word.
fn take_line<R: Print>(
    rt: &R,
    alloc: Global,
    sheet: &mut Sheet,
    word: &str,
    rest: &str,
) -> Result<()> {
    match word {
        "" | "#" => Ok(()),
        "ask" => {
            tell_row(rt, alloc, sheet)?;
            sheet.question = question_of(rest).ok_or(CaseEnd::Word)?;
            Ok(())
        }
        "text" => {
            tell_row(rt, alloc, sheet)?;
            sheet.text = String::new(alloc);
            Ok(())
        }
        "|" => Ok(add_line(&mut sheet.text, rest)?),
        "row" => {
            tell_row(rt, alloc, sheet)?;
            sheet.row = Some(Row::new(alloc, rest, sheet.text.as_str())?);
            Ok(())
        }
        _ => match &mut sheet.row {
            Some(row) => Ok(row.take_line(alloc, word, rest)?),
            None => Err(CaseEnd::Word.into()),
        },
    }
}

/// Adds a line to a text.
fn add_line(text: &mut String, line: &str) -> Result<(), CaseEnd> {
    text.push_str(line)?;
    text.push('\n')?;
    Ok(())
}

/// Prints the answer to the row that was begun, if there is one.
fn tell_row<R: Print>(rt: &R, alloc: Global, sheet: &mut Sheet) -> Result<()> {
    if let Some(mut row) = sheet.row.take() {
        let bytes = row
            .bytes(alloc)
            .context(format_args!("row {}", row.title()))?;
        let answer = answer(alloc, sheet.question, &bytes)?;
        println!(rt; "{}: {answer}", row.title())?;
    }
    Ok(())
}
