// What is wrong with a list of gate words or with its block inputs.
ghost use Rattle.std.specs.Prelude.{◌≡◌};
ghost use Rattle.gates.specs.Refusals.{number_of, index_of};

#[derive(Clone, Copy, PartialEq, Eq)]
pub enum Refusal {
    // Block inputs not 1 to 8, no gates, or more than 64 nets.
    OutsideLimits,
    // The word at this index has a wrong kind, count or unused field.
    WrongWord(usize),
    // The gate of the word at this index reads its own net or a later one.
    LateWord(usize),
    // The input has a bit at or above the input count.
    BitAbove,
}

impl Refusal {
    pub fn number(self) -> u8
        ensures { result ≡ number_of self }
    {
        match self {
            Refusal::OutsideLimits => 10,
            Refusal::WrongWord(_) => 11,
            Refusal::LateWord(_) => 12,
            Refusal::BitAbove => 13,
        }
    }

    // The index of the word that is refused.
    pub fn index(self) -> Option<usize>
        ensures { result ≡ index_of self }
    {
        match self {
            Refusal::WrongWord(i) | Refusal::LateWord(i) => Some(i),
            Refusal::OutsideLimits | Refusal::BitAbove => None,
        }
    }
}
