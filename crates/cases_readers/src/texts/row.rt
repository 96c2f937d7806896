//! A row: its title, and its text as the lines of the case change it.

use std::alloc::{AllocError, AllocFailed, Global};
use thiserror::Error;

/// Why a line of a case has no meaning.
#[derive(Debug, Drop, Error)]
pub enum CaseEnd {
    /// There are no such lines, or not here.
    #[error("there are no such lines, or not here")]
    Word,
    /// The lines that are replaced are not in the text.
    #[error("the lines that are replaced are not in the text")]
    Absent,
    /// Memory ran out.
    #[error("memory ran out")]
    Memory,
}

impl From<AllocError> for CaseEnd {
    fn from(_error: AllocError) -> CaseEnd {
        CaseEnd::Memory
    }
}

impl<T: Drop> From<AllocFailed<T>> for CaseEnd {
    fn from(_error: AllocFailed<T>) -> CaseEnd {
        CaseEnd::Memory
    }
}

/// A row that was begun: the text so far, the lines that are replaced next with those that come in their place, and the number of
/// bytes up to which spaces are added.
#[derive(Drop)]
pub struct Row {
    title: String,
    text: String,
    old: String,
    new: String,
    length: usize,
}

impl Row {
    /// A row that changes nothing.
    pub fn new(alloc: Global, title: &str, text: &str) -> Result<Row, AllocError> {
        Ok(Row {
            title: String::from_str(alloc, title)?,
            text: String::from_str(alloc, text)?,
            old: String::new(alloc),
            new: String::new(alloc),
            length: 0,
        })
    }

    /// What the row is about.
    pub fn title(&self) -> &str {
        self.title.as_str()
    }

    /// Notes what a line says that begins with a word.
    pub fn take_line(&mut self, alloc: Global, word: &str, rest: &str) -> Result<(), CaseEnd> {
        match word {
            "-" => {
                if !self.new.is_empty() {
                    self.replace(alloc)?;
                }
                self.old.push_str(rest)?;
                self.old.push('\n')?;
                Ok(())
            }
            "+" => {
                self.new.push_str(rest)?;
                self.new.push('\n')?;
                Ok(())
            }
            "pad" => {
                self.length = rest.parse::<usize>().map_err(|_| CaseEnd::Word)?;
                Ok(())
            }
            _ => Err(CaseEnd::Word),
        }
    }

    /// Replaces the old lines by the new ones, where they first stand.
    fn replace(&mut self, alloc: Global) -> Result<(), CaseEnd> {
        if !self.text.contains(self.old.as_str()) {
            return Err(CaseEnd::Absent);
        }
        self.text = self
            .text
            .replacen(alloc, self.old.as_str(), self.new.as_str(), 1)?;
        self.old = String::new(alloc);
        self.new = String::new(alloc);
        Ok(())
    }

    /// The bytes of the text, with each change made.
    pub fn bytes(&mut self, alloc: Global) -> Result<Vec<u8>, CaseEnd> {
        if !(self.old.is_empty() && self.new.is_empty()) {
            self.replace(alloc)?;
        }
        let mut bytes = unescaped(alloc, self.text.as_str())?;
        let missing = self.length.saturating_sub(bytes.len());
        bytes.extend_from_slice(" ".repeat(alloc, missing)?.as_bytes())?;
        Ok(bytes)
    }
}

/// The bytes of a text, where `\x` stands before the two digits of a byte.
fn unescaped(alloc: Global, text: &str) -> Result<Vec<u8>, CaseEnd> {
    let mut pieces = text.split("\\x");
    let mut bytes = Vec::from_slice(alloc, pieces.next().unwrap_or("").as_bytes())?;
    for piece in pieces {
        let (digits, rest) = piece.split_at_checked(2).ok_or(CaseEnd::Word)?;
        let byte = u8::from_str_radix(digits, 16).map_err(|_| CaseEnd::Word)?;
        bytes.push(byte)?;
        bytes.extend_from_slice(rest.as_bytes())?;
    }
    Ok(bytes)
}
