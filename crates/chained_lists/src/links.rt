//! The links of all lists, and the last one of each. They are named by one more than their place, and 0 names none. The last link of a list names the
//! first one, so that a head is one name.

ghost use Rattle.std.specs.Prelude.{◌≡◌, ℕ, ◌<◌, ◌≤◌, ◌^◌, List, [], ◌∷◌, ◌++◌, length, OnOk, MatchOption};
ghost use Rattle.chained_lists.specs.declared.links.Link.{Link as SomeLink};
ghost use Rattle.chained_lists.specs.Entries.{Entry, HasNoneFrom, IsNext, entry};
ghost use Rattle.chained_lists.specs.Chained.{AreChained, IsLed, IsNamed, head_at, later_name, new_link};

use crate::place::Place;
use std::alloc::AllocError;

/// A value of a list, and the name of the next one. The last one names the first.
#[derive(Clone, Copy)]
pub struct Link {
    pub value: u32,
    pub next: u32,
}

/// The name of the last value of a list.
#[derive(Clone, Copy)]
pub struct Head {
    pub last: u32,
}

/// The head of a list, which names none where there is no list.
pub fn head_of(heads: &[Head], number: usize) -> Head
    ensures { result ≡ head_at heads.now number }
{
    match heads.get(number) {
        Some(head) => *head,
        None => Head { last: 0 },
    }
}

/// The name of the first value of a list, and 0 where there is no list.
pub fn first_of(heads: &[Head], links: &[Link], number: usize) -> u32
    requires { (head_at heads.now number).last ≤ length links.now }
    ensures { (es : List Entry) → AreChained es heads.now links.now → IsNamed es number 0 result }
{
    let last = head_of(heads, number).last;
    if last == 0 {
        return 0;
    }
    links[last as usize - 1].next
}

/// The name of the first value of a list, once one more value is at its end.
pub fn first_with_one(heads: &[Head], links: &[Link], number: usize) -> u32
    requires last { (head_at heads.now number).last ≤ length links.now }
    requires few { length links.now < u32.MAX }
    ensures { (es : List Entry) (value : ℕ) → AreChained es heads.now links.now → IsNamed (es ++ entry number value ∷ []) number 0 result }
{
    let first = first_of(heads, links, number);
    if first == 0 {
        return links.len() as u32 + 1;
    }
    first
}

/// What the name in the link at a place says of the values behind it in its list.
pub fn later_name(place: Place, name: u32) -> u32
    ensures { result ≡ later_name place.0 name }
{
    if u64::from(name) > u64::from(place.0) + 1 {
        return name;
    }
    0
}

/// The place of a name.
pub fn place_named(name: u32) -> Option<Place>
    ensures { (es : List Entry) (number start : ℕ) → IsNamed es number start name → MatchOption result (HasNoneFrom es number start) (λ p. IsNext es number start p.0) }
{
    if name == 0 {
        return None;
    }
    Some(Place(name - 1))
}

/// Makes a head for each number up to this one. It answers an error where memory runs out.
pub fn grow(heads: &mut Vec<Head>, number: usize) -> Result<(), AllocError>
    ensures same { (q : ℕ) → head_at heads.new.items q ≡ head_at heads.old.items q }
    ensures room { OnOk result (number < length heads.new.items) }
{
    while heads.len() <= number {
        heads.push(Head { last: 0 })?;
    }
    Ok(())
}

/// Joins the last link, which names the first one of a list, to the list.
pub fn join(heads: &mut Vec<Head>, links: &mut Vec<Link>, number: usize)
    requires room { number < length heads.old.items }
    requires few { length links.old.items < 2 ^ 32 }
    requires last { (head_at heads.old.items number).last ≤ length links.old.items }
    ensures { (es : List Entry) (front : List SomeLink) (value first : ℕ) → links.old.items ≡ front ++ new_link value first ∷ [] → AreChained es heads.old.items front
        → IsNamed (es ++ entry number value ∷ []) number 0 first → AreChained (es ++ entry number value ∷ []) heads.new.items links.new.items }
{
    let name = links.len() as u32;
    let last = head_of(heads, number).last;
    heads[number] = Head { last: name };
    lead(links, last, name);
}

/// Leads from a link, if it is one, to another.
fn lead(links: &mut Vec<Link>, from: u32, to: u32)
    requires { from ≤ length links.old.items }
    ensures { IsLed links.old.items links.new.items from to }
{
    if from == 0 {
        return;
    }
    let place = from as usize - 1;
    let value = links[place].value;
    links[place] = Link { value, next: to };
}
