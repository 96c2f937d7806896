//! How the lines of a case write bytes: by words, of which each adds some to those before it.
//!
//! - `0aff` adds bytes by their digits, and `00x9` the same nine times;
//! - `"text"` adds a text, after its length in two bytes;
//! - `$name` adds the bytes of that name;
//! - `[` and `]` stand around what follows its length in four bytes;
//! - `@7=0a` replaces bytes that were added, from the one at that place on;
//! - `{00-ff}` adds one byte, which takes each value from the first to the last.

use std::alloc::{AllocError, AllocFailed, Global};
use thiserror::Error;

/// Why a line of a case gives no bytes.
#[derive(Debug, Drop, Error)]
pub enum NotationEnd {
    /// A word is none of the notation, or names nothing.
    #[error("a word is none of the notation, or names nothing")]
    Word,
    /// Memory ran out.
    #[error("memory ran out")]
    Memory,
}

impl From<AllocError> for NotationEnd {
    fn from(_error: AllocError) -> NotationEnd {
        NotationEnd::Memory
    }
}

impl<T: Drop> From<AllocFailed<T>> for NotationEnd {
    fn from(_error: AllocFailed<T>) -> NotationEnd {
        NotationEnd::Memory
    }
}

/// Bytes with a name.
#[derive(Debug, Drop)]
struct Piece {
    name: String,
    bytes: Vec<u8>,
}

/// All bytes with a name.
#[derive(Debug, Drop)]
pub struct Pieces {
    pieces: Vec<Piece>,
}

impl Pieces {
    /// None.
    pub fn new(alloc: Global) -> Pieces {
        Pieces {
            pieces: Vec::new(alloc),
        }
    }

    /// The bytes of a name, if it has some.
    fn get(&self, name: &str) -> Option<&[u8]> {
        for piece in self.pieces.as_slice() {
            if piece.name.as_str() == name {
                return Some(piece.bytes.as_slice());
            }
        }
        None
    }

    /// Gives bytes to a name, in place of those that it had.
    pub fn set(&mut self, alloc: Global, name: &str, bytes: Vec<u8>) -> Result<(), AllocError> {
        self.pieces.retain(|piece| piece.name.as_str() != name);
        let name = String::from_str(alloc, name)?;
        self.pieces.push(Piece { name, bytes })?;
        Ok(())
    }
}

/// The first and the last value of the byte that takes several, if a line has one.
pub fn values_in(line: &str) -> Result<Option<(u8, u8)>, NotationEnd> {
    for word in line.split_whitespace() {
        if let Some(range) = word.strip_prefix('{') {
            let Some((first, rest)) = range.split_once('-') else {
                return Err(NotationEnd::Word);
            };
            let last = rest.strip_suffix('}').unwrap_or(rest);
            return Ok(Some((byte_of(first)?, byte_of(last)?)));
        }
    }
    Ok(None)
}

/// The bytes of a line, where the byte that takes several values has this one.
pub fn bytes_of(
    alloc: Global,
    pieces: &Pieces,
    line: &str,
    value: u8,
) -> Result<Vec<u8>, NotationEnd> {
    let mut writer = Writer {
        bytes: Vec::new(alloc),
        open: Vec::new(alloc),
    };
    for word in line.split_whitespace() {
        writer.add_word(alloc, pieces, word, value)?;
    }
    if writer.open.is_empty() {
        return Ok(writer.bytes);
    }
    Err(NotationEnd::Word)
}

/// The bytes that were added, and the places of the lengths that are still to be written.
#[derive(Drop)]
struct Writer {
    bytes: Vec<u8>,
    open: Vec<usize>,
}

impl Writer {
    /// Adds what a word says.
    fn add_word(
        &mut self,
        alloc: Global,
        pieces: &Pieces,
        word: &str,
        value: u8,
    ) -> Result<(), NotationEnd> {
        if let Some(name) = word.strip_prefix('$') {
            let piece = pieces.get(name).ok_or(NotationEnd::Word)?;
            self.bytes.extend_from_slice(piece)?;
            return Ok(());
        }
        if let Some(rest) = word.strip_prefix('"') {
            return self.add_text(rest.strip_suffix('"').unwrap_or(rest));
        }
        if let Some(rest) = word.strip_prefix('@') {
            return self.replace(alloc, rest);
        }
        if word.starts_with('{') {
            self.bytes.push(value)?;
            return Ok(());
        }
        match word {
            "[" => self.open_length(),
            "]" => self.close_length(),
            _ => self.add_digits(alloc, word),
        }
    }

    /// Adds a text after its length.
    fn add_text(&mut self, text: &str) -> Result<(), NotationEnd> {
        let Ok(long) = u16::try_from(text.len()) else {
            return Err(NotationEnd::Word);
        };
        self.bytes.extend_from_slice(&long.to_be_bytes())?;
        self.bytes.extend_from_slice(text.as_bytes())?;
        Ok(())
    }

    /// Adds bytes by their digits, once or several times.
    fn add_digits(&mut self, alloc: Global, word: &str) -> Result<(), NotationEnd> {
        let (digits, count) = match word.split_once('x') {
            Some((digits, count)) => (digits, number_of(count)?),
            None => (word, 1),
        };
        let block = block_of(alloc, digits)?;
        for _ in 0..count {
            self.bytes.extend_from_slice(&block)?;
        }
        Ok(())
    }

    /// Leaves place for a length.
    fn open_length(&mut self) -> Result<(), NotationEnd> {
        self.open.push(self.bytes.len())?;
        self.bytes.extend_from_slice(&[0, 0, 0, 0])?;
        Ok(())
    }

    /// Writes the length of what stands behind the place that was left last.
    fn close_length(&mut self) -> Result<(), NotationEnd> {
        let at = self.open.pop().ok_or(NotationEnd::Word)?;
        let behind = self.bytes.len().saturating_sub(at).saturating_sub(4);
        let Ok(long) = u32::try_from(behind) else {
            return Err(NotationEnd::Word);
        };
        self.write_at(at, &long.to_be_bytes())
    }

    /// Replaces bytes: a place, `=`, and digits.
    fn replace(&mut self, alloc: Global, word: &str) -> Result<(), NotationEnd> {
        let (place, digits) = word.split_once('=').ok_or(NotationEnd::Word)?;
        let block = block_of(alloc, digits)?;
        self.write_at(number_of(place)?, &block)
    }

    /// Writes bytes in place of those from a place on.
    fn write_at(&mut self, at: usize, block: &[u8]) -> Result<(), NotationEnd> {
        for (index, byte) in block.iter().enumerate() {
            match self.bytes.get_mut(at.saturating_add(index)) {
                Some(place) => *place = *byte,
                None => return Err(NotationEnd::Word),
            }
        }
        Ok(())
    }
}

/// A number in decimal digits.
fn number_of(digits: &str) -> Result<usize, NotationEnd> {
    digits.parse::<usize>().map_err(|_| NotationEnd::Word)
}

/// A byte by its two digits.
fn byte_of(digits: &str) -> Result<u8, NotationEnd> {
    match u8::from_str_radix(digits, 16) {
        Ok(byte) => Ok(byte),
        Err(_) => Err(NotationEnd::Word),
    }
}

/// Bytes by their digits, two a byte.
fn block_of(alloc: Global, digits: &str) -> Result<Vec<u8>, NotationEnd> {
    hex::decode(alloc, digits).map_err(|_| NotationEnd::Word)
}
