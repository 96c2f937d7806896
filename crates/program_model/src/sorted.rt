//! The place of a name among names in the order of their bytes.

ghost use Rattle.std.specs.Prelude.{◌≡◌, ℕ, ◌<◌, ◌^◌, length, Some, slice_get, IfSome, IfNone};
ghost use Rattle.std.specs.List.Sorted.{IsSearchInRange, IsBinarySearchResult};
ghost use Rattle.std.specs.Ordering.{nat_cmp};
ghost use Rattle.std.specs.Cmp.Lexicographic.{slice_cmp};
ghost use Rattle.program_model.specs.ByteOrder.{IsAscending};
ghost use Rattle.program_index.specs.FirstPlaces.{StandsNowhere};

use jvm_model::Bytes;

/// The place of a name among names that ascend. It compares log n times, and takes no memory.
pub fn find_in_order(names: &[Bytes], text: &[u8]) -> Option<u32>
    requires ascending { IsAscending names.now }
    requires small { length names.now < 2 ^ 32 }
    ensures found { IfSome result (λ place. slice_get names.now place ≡ Some text.now) }
    ensures none { IfNone result (StandsNowhere names.now text.now) }
    ensures only { (place : ℕ) → slice_get names.now place ≡ Some text.now → result ≡ Some place }
{
    match search(names, text) {
        Ok(place) => Some(place as u32),
        Err(_) => None,
    }
}

/// Where the text stands, or where it would go.
fn search(names: &[Bytes], text: &[u8]) -> Result<usize, usize>
    ensures bound { IsSearchInRange result (length names.now) }
    ensures position { IsBinarySearchResult (λ name. slice_cmp nat_cmp name text.now) names.now result }
{
    names.binary_search_by(|name| name.as_slice().cmp(text))
}
