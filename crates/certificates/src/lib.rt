//! Certificates as texts: the lines of `certificate_lines`, one after another, up to a limit of bytes; which lines make a certificate; and
//! which line of a text is the first that is not of the format.
//! A run that prints what it found calls `write_certificate`, and one that checks a certificate `read_certificate`. Begin with specs/Texts.antt
//! and specs/Format.antt.
#![tactic(auto)]

mod certificate;
mod fault;
mod following;
pub mod laws;
mod line_tests;
mod ranges;
mod reading;
mod writing;

pub use certificate::Certificate;
pub use fault::{BadLine, CertificateFailure, CertificateFault, CertificateRefusal};
pub use ranges::Ranges;
pub use reading::read_certificate;
pub use writing::{MOST_BYTES, write_certificate};
