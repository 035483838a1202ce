// Why a call is refused: a case for each row of the document's table of refusals.
ghost use Rattle.std.specs.Prelude.{◌≡◌};
ghost use Rattle.numbers.specs.Refusals.{number_of};

use std::error::Error;
use std::fmt;

#[derive(Clone, Copy, Debug, PartialEq, Eq, Hash)]
pub enum Refusal {
    NotEnabled,
    AlreadyEnabled,
    LengthsOutOfRange,
    NotSound,
    AdvanceOpen,
    NoAdvanceOpen,
    NoSuchEntry,
    AnotherGeneration,
    NoDeadline,
    NoFreeSlot,
    LastSerial,
    StaleHandle,
    NotTheArmedGeneration,
    TableTooShort,
    CapacityTooLarge,
    NoSuchDeque,
    NotInThisDeque,
}

impl Refusal {
    // The row's number.
    pub fn number(self) -> u64
        ensures { result ≡ number_of self }
    {
        match self {
            Refusal::NotEnabled => 1,
            Refusal::AlreadyEnabled => 2,
            Refusal::LengthsOutOfRange => 3,
            Refusal::NotSound => 4,
            Refusal::AdvanceOpen => 5,
            Refusal::NoAdvanceOpen => 6,
            Refusal::NoSuchEntry => 7,
            Refusal::AnotherGeneration => 8,
            Refusal::NoDeadline => 9,
            Refusal::NoFreeSlot => 10,
            Refusal::LastSerial => 11,
            Refusal::StaleHandle => 12,
            Refusal::NotTheArmedGeneration => 13,
            Refusal::TableTooShort => 14,
            Refusal::CapacityTooLarge => 15,
            Refusal::NoSuchDeque => 16,
            Refusal::NotInThisDeque => 17,
        }
    }
}

impl fmt::Display for Refusal {
    fn fmt<W: fmt::Write>(&self, f: &mut fmt::Formatter<W>) -> fmt::Result {
        write!(f, "refused {}", self.number())
    }
}

impl Error for Refusal {}
