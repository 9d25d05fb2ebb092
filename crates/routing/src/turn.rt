// The turn of rule 4, by the trailing zeros of a turned mask.
ghost use Rattle.std.specs.Prelude.{◌≡◌, ◌+◌, ◌*◌, ◌/◌, ◌%◌, ◌^◌, ◌≤◌, ◌<◌};
ghost use Rattle.std.specs.Int.Count.{count_trailing_zeros};
ghost use Rattle.routing.specs.Four.{bit_at};
ghost use Rattle.routing.specs.Turn.{in_turn};
ghost use Rattle.routing.specs.Port.{input};

use super::port::Input;

// The mask turned: bit 0 is the input `next` modulo 4. One multiplication puts eight copies of the mask side by side, where two copies would take
// a shift and a sum.
fn turned_mask(mask: u8, next: u32) -> u32
    requires { (mask < 16) × (next ≤ 4) }
    ensures { result ≡ mask * 0x11111111 / 2 ^ next }
{
    (u32::from(mask) * 0x11111111) >> next
}

// How many places the turn passes: the trailing zeros of a turned mask. Where none of the first three places is marked it is the fourth
// one's turn, and the 8 stops the count there.
fn passed(turned: u32) -> u32
    ensures { (result ≡ count_trailing_zeros 32 (turned % 8 + 8)) × (result ≤ 32) }
{
    (turned % 8 + 8).trailing_zeros()
}

// The first of the mask's inputs in turn after the holder.
pub(crate) fn in_turn(mask: u8, holder: Input) -> Input
    requires { mask < 16 }
    ensures { result ≡ input (in_turn (λ i. bit_at i mask) holder.0) }
{
    let next = u32::from(holder.0 % 4) + 1;
    Input(((next + passed(turned_mask(mask, next))) % 4) as u8)
}
