//! The sites of what is there from the start.

ghost use Rattle.std.specs.Prelude.{◌≡◌, length, Some, slice_get, IfOk, OnOk};
ghost use Rattle.machine_bytecode.specs.Start.{boot_site};
ghost use Rattle.points_to_numbers.specs.Numbered.{Grows};

use crate::keys::SiteKey;
use crate::tables::Tables;
use jvm_model::{SiteKind, SiteNo};
use program_index::index_failure::IndexFailure;

/// The number of the site of what is there from the start, of a class.
pub fn boot_site(tables: &mut Tables, class: &[u8]) -> Result<SiteNo, IndexFailure>
    ensures grows { OnOk result (Grows tables.old tables.new) }
    ensures calls { OnOk result (length tables.new.calls ≡ length tables.old.calls) }
    ensures stands { IfOk result (λ number. slice_get tables.new.sites number.0 ≡ Some (boot_site class.now)) }
{
    let class = tables.class_name(class)?;
    let site = tables.site(SiteKey {
        kind: SiteKind::Boot,
        method: None,
        offset: 0,
        class,
    })?;
    Ok(site)
}
