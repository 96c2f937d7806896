//! How a run ends.

ghost use Rattle.std.specs.Prelude.{◌≡◌};
ghost use Rattle.run_spec.specs.Statuses.{code_of};

/// How a run ended. The program ends with the status's code.
#[derive(Clone, Copy, Debug, PartialEq, Eq)]
pub enum Status {
    /// Each tracked site is safe.
    AllSafe,
    /// Some tracked site is unproved, or a limit was reached at it.
    SomeUnproved,
    /// The input is refused.
    Refused,
    /// A certificate is rejected.
    RejectedCertificate,
    /// Reading failed.
    ReadFault,
    /// Writing failed.
    WriteFault,
    /// The words ask for what cannot be done.
    Usage,
    /// Out of memory.
    Memory,
}

impl Status {
    /// The number that the program ends with: 0 to 7, in the order above.
    pub fn code(self) -> u8
        ensures { result ≡ code_of self }
    {
        self as u8
    }
}
