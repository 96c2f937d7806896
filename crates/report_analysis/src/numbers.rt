//! The numbers in the ground of the tracked sites.

ghost use Rattle.std.specs.Prelude.{◌≡◌, ◌<◌, ℕ, length, slice_get, Some, Contains, IfOk, IfSome};
ghost use Rattle.jvm_model.specs.declared.number.SiteNo.{SiteNo as RuleSiteNo};
ghost use Rattle.program_model.specs.Numbers.{IsClassNumber};
ghost use Rattle.prune_stage.specs.Places.{AreBelow, StandsInTable};
ghost use Rattle.site_report.specs.Sites.{AreInOrder};
ghost use Rattle.report_analysis.specs.Numbers.{AreNumbers, AreTurnedRound, numbers_with};

use ground::Ground;
use jvm_model::SiteNo;
use prune_stage::site_places;
use site_report::TrackedSite;
use std::alloc::{AllocError, Global};

/// Of each tracked site the number that it has in the ground, if it has one. It takes time by the number of sites of the ground, and for each by a search
/// among those that are tracked.
pub(crate) fn numbers_of(
    alloc: Global,
    ground: &Ground<'_>,
    sites: &[TrackedSite],
) -> Result<Vec<Option<SiteNo>>, AllocError>
    requires order { AreInOrder sites.now }
    requires known { (t : TrackedSite) → Contains sites.now t → IsClassNumber ground.now.program t.class.0 }
    ensures { IfOk result (λ numbers. AreNumbers ground.now sites.now numbers.items) }
{
    let places = site_places(alloc, ground.program(), ground, sites)?;
    let count = u32::try_from(places.len()).map_err(|_| AllocError)?;
    let mut numbers = vec![in alloc; None; sites.len()]?;
    put_numbers(places.as_slice(), count, &mut numbers);
    Ok(numbers)
}

/// Puts each number at its place, if it has one.
fn put_numbers(places: &[Option<usize>], count: u32, numbers: &mut [Option<SiteNo>])
    requires count { count ≡ length places.now }
    requires below { AreBelow (length numbers.old) (StandsInTable places.now) }
    requires none { (place : ℕ) (n : RuleSiteNo) → slice_get numbers.old place ≡ Some (Some n) → ⊥ }
    ensures { AreTurnedRound places.now (length numbers.old) (length places.now) numbers.new }
{
    for number in 0..count {
        put_number(places[number as usize], SiteNo(number), numbers);
    }
}

/// Puts a number at its place, if it has one.
fn put_number(place: Option<usize>, number: SiteNo, numbers: &mut [Option<SiteNo>])
    requires { IfSome place (λ place. place < length numbers.old) }
    ensures { numbers.new ≡ numbers_with numbers.old place number }
{
    match place {
        Some(place) => numbers[place] = Some(number),
        None => {}
    }
}
