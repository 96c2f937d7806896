//! Numbers of allocation sites: each site that comes gets the next number, and is found again by hashing.
//! What makes a ground of listed sets numbers the sites that lines name, by `SiteNumbers`.
//! Begin with src/site_numbers.rt; a site is looked up by its words, src/site_words.rt.
#![tactic(auto)]

mod site_numbers;
mod site_words;

pub use site_numbers::SiteNumbers;
