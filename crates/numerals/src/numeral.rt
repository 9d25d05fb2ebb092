// Digits, the point and the comma, and how far they go on around a place.
ghost use Rattle.std.specs.Prelude.{◌≡◌, ◌≤◌, length};
ghost use Rattle.numerals.specs.Numeral.{numeral, run_begins, run_ends};

#[tactic(auto, unfolding(crate::specs::Numeral::numeral))]
pub fn is_numeral(b: u8) -> bool
    ensures { result ≡ numeral b }
{
    matches!(b, b'0'..=b'9' | b'.' | b',')
}

// Where the numeral bytes before place k begin.
pub(crate) fn run_begins(text: &[u8], k: usize) -> usize
    requires { k ≤ length text.now }
    ensures { (result ≡ run_begins text.now k) × (result ≤ k) }
{
    k - text[..k]
        .iter()
        .rev()
        .take_while(|b| is_numeral(**b))
        .count()
}

// The place behind the numeral bytes from place k on.
pub(crate) fn run_ends(text: &[u8], k: usize) -> usize
    requires { k ≤ length text.now }
    ensures { (result ≡ run_ends text.now k) × (k ≤ result) × (result ≤ length text.now) }
{
    k + text[k..].iter().take_while(|b| is_numeral(**b)).count()
}
