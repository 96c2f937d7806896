//! The numbers of the sites that lines name.

ghost use Rattle.std.specs.Prelude.{IfOk, OnOk};
ghost use Rattle.certificate_ground.specs.Listed.{holder_sites, named_sites};
ghost use Rattle.certificate_ground.specs.Sites.{AreNumbered, HasMore};

use certificate_lines::{Holder, Line};
use site_numbers::SiteNumbers;
use std::alloc::{AllocError, Global};

/// The sites that lines name, by number.
pub(crate) fn sites_of<'a>(alloc: Global, lines: &'a [Line]) -> Result<SiteNumbers<'a>, AllocError>
    ensures { IfOk result (AreNumbered lines.now) }
{
    let mut sites = SiteNumbers::new(alloc);
    for line in lines {
        number_line(line, &mut sites)?;
    }
    Ok(sites)
}

/// Numbers the sites that a line names.
fn number_line<'a>(line: &'a Line, sites: &mut SiteNumbers<'a>) -> Result<(), AllocError>
    ensures { OnOk result (HasMore (named_sites line.now) sites.old sites.new) }
{
    match line {
        Line::PointsTo { holder, site } => {
            number_holder(holder, sites)?;
            sites.number(site)?;
            Ok(())
        }
        Line::Claim { stage: _, site } => {
            sites.number(site)?;
            Ok(())
        }
        Line::Version
        | Line::Class(_)
        | Line::State(_)
        | Line::Initial(_)
        | Line::Error(_)
        | Line::Event(_)
        | Line::Entry(_)
        | Line::Depth(_)
        | Line::Reached(_)
        | Line::Modifies { .. }
        | Line::PathEdge(_)
        | Line::End => Ok(()),
    }
}

/// Numbers the site whose objects have a holder, if it is a field or the elements.
fn number_holder<'a>(holder: &'a Holder, sites: &mut SiteNumbers<'a>) -> Result<(), AllocError>
    ensures { OnOk result (HasMore (holder_sites holder.now) sites.old sites.new) }
{
    match holder {
        Holder::Field(site, _) => {
            sites.number(site)?;
            Ok(())
        }
        Holder::Elements(site) => {
            sites.number(site)?;
            Ok(())
        }
        Holder::Variable(_)
        | Holder::Static(_)
        | Holder::Kept
        | Holder::Returned(_)
        | Holder::Thrown(_) => Ok(()),
    }
}
