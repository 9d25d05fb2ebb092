// Saving a state into a lent buffer.
ghost use Rattle.std.specs.Prelude.{◌≡◌, [], ◌∷◌, ◌+◌, ◌/◌, ◌%◌, ◌≤◌, ◌<◌, length};
ghost use Rattle.std.proofs.lemmas.List.Edits.{sets};
ghost use Rattle.fabric.specs.Cycle.{machine};
ghost use Rattle.states.specs.Refusal.{number_in};
ghost use Rattle.states.specs.State.{Held};
ghost use Rattle.saved.specs.Saved.{word_of, row_bytes, saved_bytes, save_refusal, save_writes};

use states::{Refusal, State};

pub(crate) const SAVED_LEN: usize = 18;

fn word(s: State) -> u16
    requires { Held s }
    ensures { result ≡ word_of s }
{
    // field by field, so that the layout can be read off here
    let flags = 32768 * u16::from(s.waiting)
        + 16384 * u16::from(s.shut[3])
        + 8192 * u16::from(s.shut[2])
        + 4096 * u16::from(s.shut[1])
        + 2048 * u16::from(s.shut[0]);
    flags
        + 512 * u16::from(s.holders[3].0)
        + 128 * u16::from(s.holders[2].0)
        + 32 * u16::from(s.holders[1].0)
        + 8 * u16::from(s.holders[0].0)
}

fn put_word(out: &mut [u8], w: u16)
    requires { 1 < length out.old }
    ensures { out.new ≡ sets out.old 0 (w / 256 ∷ w % 256 ∷ []) }
{
    out[..2].copy_from_slice(&w.to_be_bytes());
}

fn put_row(out: &mut [u8], at: usize, row: [u8; 4])
    requires { at + 3 < length out.old }
    ensures { out.new ≡ sets out.old at (row_bytes row) }
{
    out[at..at + 4].copy_from_slice(&row);
}

fn put_saved(out: &mut [u8], w: u16, rows: [[u8; 4]; 4])
    requires { 17 < length out.old }
    ensures { out.new ≡ sets out.old 0 (saved_bytes w rows) }
{
    put_word(&mut *out, w);
    put_row(&mut *out, 2, rows[0]);
    put_row(&mut *out, 6, rows[1]);
    put_row(&mut *out, 10, rows[2]);
    put_row(&mut *out, 14, rows[3]);
}

fn check(s: State, room: usize) -> Result<(), Refusal>
    ensures { number_in result ≡ save_refusal s room }
{
    states::check(s)?;
    if room < SAVED_LEN {
        return Err(Refusal::SavingTooShort);
    }
    Ok(())
}

// Writes the saved state into the first 18 bytes of a buffer, or refuses and writes nothing.
pub fn save(s: State, rows: [[u8; 4]; 4], out: &mut [u8]) -> Result<(), Refusal>
    ensures number { number_in result ≡ save_refusal s (length out.old) }
    ensures writes { out.new ≡ save_writes (machine s rows) out.old }
{
    check(s, out.len())?;
    put_saved(out, word(s), rows);
    Ok(())
}
