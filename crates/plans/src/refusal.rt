// What can be wrong with a frame, in the order in which it is looked for.
ghost use Rattle.std.specs.Prelude.{◌≡◌};
ghost use Rattle.plans.specs.Refused.{number_of};

#[derive(Clone, Copy, PartialEq, Eq)]
pub enum Refusal {
    // a gap not from 1 to 16, or a frame not from gap + 2 to 4,096 cycles long
    OffLimits,
    // a header that is not active
    HeaderInactive,
    // a body not of 1 to 64 bytes, or ending in zero
    BodyWrong,
    // a last body byte sent in the frame's last cycle or later
    TooLate,
    // a buffer without room for the frame's records
    NoRoom,
}

impl Refusal {
    pub fn number(self) -> u8
        ensures { result ≡ number_of self }
    {
        match self {
            Refusal::OffLimits => 20,
            Refusal::HeaderInactive => 21,
            Refusal::BodyWrong => 22,
            Refusal::TooLate => 23,
            Refusal::NoRoom => 24,
        }
    }
}
