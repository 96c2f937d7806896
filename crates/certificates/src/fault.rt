//! Why a certificate is not written, and why it is not read.

use failure::Failure;
use thiserror::Error;

/// What is wrong with lines that are to be written.
#[derive(Clone, Copy, Debug, PartialEq, Eq, Error)]
pub enum CertificateFault {
    /// The text would have more than `MOST_BYTES` bytes.
    #[error("the certificate has more than 1073741824 bytes")]
    TooLarge,
}

/// Why a certificate is not written: it is too large, or out of memory.
pub type CertificateFailure = Failure<CertificateFault>;

/// The first line of a text that is not of the format, by its number from 1; or 0 where there are more than `MOST_BYTES` bytes.
#[derive(Clone, Copy, Debug, PartialEq, Eq, Error)]
#[error("line {0} is not of the format")]
pub struct BadLine(pub u32);

/// Why a certificate is not read: a line of it is not of the format, or out of memory.
pub type CertificateRefusal = Failure<BadLine>;
