// Yes and no as numbers.
ghost use Rattle.std.specs.Prelude.{◌≡◌, ◌<◌, false, get_or};
ghost use Rattle.routing.specs.Four.{mask};

// Four answers as a mask, the first in bit 0.
pub fn mask(answers: [bool; 4]) -> u8
    ensures { (result ≡ mask (λ n. get_or answers n false)) × (result < 16) }
{
    let [a, b, c, d] = answers.map(u8::from);
    a + 2 * b + 4 * c + 8 * d
}
