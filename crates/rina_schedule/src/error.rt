//! Errors of reading a line.
ghost use Rattle.std.specs.Prelude.{◌≡◌};
ghost use Rattle.rina_schedule.specs.Errors.{number_of, field_of};

use std::alloc::AllocError;

/// The first error of a line, from the left. `n` is the number of a field; the word is field 0.
#[derive(Clone, Copy, Debug, PartialEq, Eq)]
pub enum LineError {
    /// An allocation failed.
    Memory,
    /// The grammar has no such word.
    UnknownWord,
    /// The line ends before field `n`.
    MissingField { n: u32 },
    /// Field `n` is not a number, or is out of range.
    BadNumber { n: u32 },
    /// Field `n` is not a name.
    BadName { n: u32 },
    /// The line has a field `n`, and has to end before it.
    Extra { n: u32 },
    /// Field `n` does not spell bytes.
    BadBytes { n: u32 },
}

impl From<AllocError> for LineError {
    ghost use Rattle.std.specs.Prelude.{◌≡◌};
    ghost use Rattle.rina_schedule.specs.declared.error.LineError.TheVariants.{Memory};

    ghost from_gives = { λ _ e. e ≡ Memory };

    fn from(_error: AllocError) -> LineError {
        LineError::Memory
    }
}

impl LineError {
    /// The number by which a fault tells the error: 1 to 6, in the order of the variants. `Memory` is an error of no
    /// line, and has 0.
    pub fn number(self) -> u32
        ensures { result ≡ number_of self }
    {
        match self {
            LineError::Memory => 0,
            LineError::UnknownWord => 1,
            LineError::MissingField { .. } => 2,
            LineError::BadNumber { .. } => 3,
            LineError::BadName { .. } => 4,
            LineError::Extra { .. } => 5,
            LineError::BadBytes { .. } => 6,
        }
    }

    /// The field at which the line fails. An unknown word is field 0.
    pub fn field(self) -> u32
        ensures { result ≡ field_of self }
    {
        match self {
            LineError::Memory | LineError::UnknownWord => 0,
            LineError::MissingField { n } => n,
            LineError::BadNumber { n } => n,
            LineError::BadName { n } => n,
            LineError::Extra { n } => n,
            LineError::BadBytes { n } => n,
        }
    }
}
