// Why a call over a machine is refused: the numbers 1 to 9 and 14 of document 01.
ghost use Rattle.std.specs.Prelude.{◌≡◌};
ghost use Rattle.states.specs.Refusal.{number_of, index_of};

// Each is named after what is wrong. A bad record's place is counted from 0.
#[derive(Clone, Copy, PartialEq, Eq)]
pub enum Refusal {
    CaptureCut,
    AnswersTooShort,
    SpareBitSet { at: usize },
    TooManyRecords,
    SavedLength,
    SavedZerosSet,
    OpenWhileWaiting,
    HeldTwice,
    SavingTooShort,
    HolderAbove,
}

impl Refusal {
    // Its number, as it is printed.
    pub fn number(self) -> u8
        ensures { result ≡ number_of self }
    {
        match self {
            Refusal::CaptureCut => 1,
            Refusal::AnswersTooShort => 2,
            Refusal::SpareBitSet { .. } => 3,
            Refusal::TooManyRecords => 4,
            Refusal::SavedLength => 5,
            Refusal::SavedZerosSet => 6,
            Refusal::OpenWhileWaiting => 7,
            Refusal::HeldTwice => 8,
            Refusal::SavingTooShort => 9,
            Refusal::HolderAbove => 14,
        }
    }

    // The bad record's place, where there is one.
    pub fn index(self) -> Option<usize>
        ensures { result ≡ index_of self }
    {
        match self {
            Refusal::SpareBitSet { at } => Some(at),
            _ => None,
        }
    }
}
