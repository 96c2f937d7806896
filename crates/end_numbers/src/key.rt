//! The keys of ends: what stands in the place of an end, and the row that a key is.

ghost use Rattle.std.specs.Prelude.{◌≡◌, ◌<◌, Some, length, slice_get, IfOk, OnErr, OnOk};
ghost use Rattle.fact_pool.specs.Rows.{IsInterned};
ghost use Rattle.end_numbers.specs.KeyRows.{AreKeyRows, key_words, keys_from, kind_of, method_from, method_number, row_key, spot_from, spot_offset};

use fact_pool::{FactPool, Row};
use jvm_model::MethodNo;
use op_model::Spot;
use std::alloc::AllocError;

/// An end, whose fact is named by its row.
#[derive(Clone, Copy)]
pub struct EndKey {
    pub method: Option<MethodNo>,
    pub spot: Spot,
    pub fact: u32,
}

/// The row of a key, which becomes the last row where there is none yet. It answers an error where memory runs out, or where there are 2^30 - 1 keys. Nothing has
/// changed then.
pub fn intern_key(rows: &mut FactPool, key: EndKey) -> Result<Row, AllocError>
    requires { length rows.old.rows < u32.MAX }
    ensures row { IfOk result (λ row. slice_get rows.new.rows row.0 ≡ Some (key_words key)) }
    ensures interned { OnOk result (IsInterned rows.old rows.new (key_words key)) }
    ensures err { OnErr result (rows.new ≡ rows.old) }
{
    rows.intern(&[
        kind_of(key.method, key.spot),
        method_number(key.method),
        spot_offset(key.spot),
        key.fact,
    ])
}

/// The key of a number.
pub fn key_at(rows: &FactPool, number: u32) -> EndKey
    requires held { number < length rows.now.rows }
    requires keys { AreKeyRows rows.now.rows }
    ensures { slice_get (keys_from rows.now.rows) number ≡ Some result }
{
    read_key(rows.words(Row(number)))
}

/// The key of these words.
fn read_key(words: &[u32]) -> EndKey
    requires { length words.now ≡ 4 }
    ensures { result ≡ row_key words.now }
{
    EndKey {
        method: method_from(words[0], words[1]),
        spot: spot_from(words[0], words[2]),
        fact: words[3],
    }
}

/// Whether a place is one of a method or of the start of the program, and which spot it is.
fn kind_of(method: Option<MethodNo>, spot: Spot) -> u32
    ensures { result ≡ kind_of method spot }
{
    match method {
        None => match spot {
            Spot::Node(_) => 0,
            Spot::Returned => 1,
            Spot::Thrown => 2,
        },
        Some(_) => match spot {
            Spot::Node(_) => 3,
            Spot::Returned => 4,
            Spot::Thrown => 5,
        },
    }
}

/// The number of the method, if there is one.
fn method_number(method: Option<MethodNo>) -> u32
    ensures { result ≡ method_number method }
{
    match method {
        None => 0,
        Some(method) => method.0,
    }
}

/// The offset of the node, if the spot is one.
fn spot_offset(spot: Spot) -> u32
    ensures { result ≡ spot_offset spot }
{
    match spot {
        Spot::Node(offset) => offset,
        Spot::Returned => 0,
        Spot::Thrown => 0,
    }
}

/// The method of a place of a kind, with this number.
fn method_from(kind: u32, number: u32) -> Option<MethodNo>
    ensures { result ≡ method_from kind number }
{
    if kind < 3 {
        return None;
    }
    Some(MethodNo(number))
}

/// The spot of a place of a kind, with this offset.
fn spot_from(kind: u32, offset: u32) -> Spot
    ensures { result ≡ spot_from kind offset }
{
    match kind {
        0 => Spot::Node(offset),
        1 => Spot::Returned,
        2 => Spot::Thrown,
        3 => Spot::Node(offset),
        4 => Spot::Returned,
        _ => Spot::Thrown,
    }
}
