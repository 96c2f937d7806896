//! An instruction at its place.

ghost use Rattle.code_reader.specs.Division.{Spot as PlacedSpot};

use crate::decode::Decoded;
use std::marker::Model;

/// An instruction, and its offset in the code.
#[derive(Drop)]
pub(crate) struct Spot {
    pub(crate) offset: u32,
    pub(crate) decoded: Decoded,
}

impl Model for Spot {
    ghost Value = { PlacedSpot };

    ghost view = { λ s. record { offset = s.offset; instruction = s.decoded } };
}
