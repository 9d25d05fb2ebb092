// Why texts with a capture behind them are refused before the capture is looked at.
ghost use Rattle.std.specs.Prelude.{◌≡◌};
ghost use Rattle.readings.specs.ReadBack.{number_of};

// The input ends inside its texts.
#[derive(Clone, Copy)]
pub(crate) enum Refusal {
    CutShort,
}

impl Refusal {
    // Its number, as it is printed.
    pub(crate) fn number(self) -> u8
        ensures { result ≡ number_of self }
    {
        match self {
            Refusal::CutShort => 25,
        }
    }
}
