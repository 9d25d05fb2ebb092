// The piece of one of two texts around the first place where they differ.
ghost use Rattle.std.specs.Prelude.{◌≡◌, ◌<◌, length};
ghost use Rattle.numerals.specs.Piece.{holding, around, piece_of};

use super::numeral;

#[tactic(auto, unfolding(crate::specs::Piece::around))]
fn around(text: &[u8], k: usize) -> &[u8]
    requires { k < length text.now }
    ensures { result.now ≡ around text.now k }
{
    if numeral::is_numeral(text[k]) {
        let from = numeral::run_begins(text, k);
        let to = numeral::run_ends(text, k);
        &text[from..to]
    } else {
        &text[k..k + 1]
    }
}

pub(crate) fn piece_at<'a>(station: &'a [u8], head: &'a [u8], k: usize) -> &'a [u8]
    requires { k < length (holding station.now head.now k) }
    ensures { result.now ≡ around (holding station.now head.now k) k }
{
    if k < station.len() {
        around(station, k)
    } else {
        around(head, k)
    }
}

// A part of the station's text where the first difference lies inside it, otherwise of the head's; an empty part where nothing differs.
pub fn piece<'a>(station: &'a [u8], head: &'a [u8]) -> &'a [u8]
    ensures { result.now ≡ piece_of station.now head.now }
{
    match text::first_difference(station, head) {
        None => &station[..0],
        Some(k) => piece_at(station, head, k),
    }
}
