//! What a certificate may speak of.

/// How many methods and how many fields the program has.
#[derive(Clone, Copy, Debug, PartialEq, Eq)]
pub struct Ranges {
    pub methods: u32,
    pub fields: u32,
}
