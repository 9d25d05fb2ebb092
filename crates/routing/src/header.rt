// The header byte, and who asks for an output.
ghost use Rattle.std.specs.Prelude.{◌≡◌, ◌<◌};
ghost use Rattle.routing.specs.Four.{mask};
ghost use Rattle.routing.specs.Header.{asks, asks_high, asker, high_asker, some_active};

use super::bits;
use super::port::Output;

fn asks(h: u8, o: Output) -> bool
    ensures { result ≡ asks o.0 h }
{
    (h % 2 == 1) & (h / 4 % 4 == o.0)
}

fn asks_high(h: u8, o: Output) -> bool
    ensures { result ≡ asks_high o.0 h }
{
    (h % 2 == 1) & (h / 4 % 4 == o.0) & (h / 2 % 2 == 1)
}

// Who asks for an output, as a mask.
pub(crate) fn askers(headers: [u8; 4], o: Output) -> u8
    ensures { (result ≡ mask (asker headers o.0)) × (result < 16) }
{
    bits::mask(headers.map(|h| asks(h, o)))
}

// Who asks for it in the high class, as a mask.
pub(crate) fn high_askers(headers: [u8; 4], o: Output) -> u8
    ensures { (result ≡ mask (high_asker headers o.0)) × (result < 16) }
{
    bits::mask(headers.map(|h| asks_high(h, o)))
}

pub(crate) fn some_active(headers: [u8; 4]) -> bool
    ensures { result ≡ some_active headers }
{
    headers.iter().any(|h| h % 2 == 1)
}
