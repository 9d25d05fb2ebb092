// The replay of a capture, by whichever engine.
ghost use Rattle.std.specs.Prelude.{◌≡◌, ◌++◌, ◌*◌, ◌≤◌, length, drop};
ghost use Rattle.states.specs.State.{Held};
ghost use Rattle.fabric.specs.Cycle.{machine};
ghost use Rattle.places.specs.Capture.{records};
ghost use Rattle.capture.specs.Replay.{end_of, answers, replayed, replay_of, replay_writes};

use super::engine::Engine;
use super::refusal;
use states::{Machine, Refused, State};

// All whole records of a capture, one after the other.
fn run<E: Engine>(
    engine: &E,
    s: State,
    rows: [[u8; 4]; 4],
    capture: &[u8],
    buffer: &mut [u8],
) -> Machine
    requires { Held s × (length capture.now ≤ length buffer.old) }
    ensures state { result ≡ end_of (machine s rows) capture.now }
    ensures writes { buffer.new ≡ answers (machine s rows) capture.now ++ drop (5 * records capture.now) buffer.old }
{
    let mut m = Machine { state: s, rows };
    // by places and not by `chunks_exact_mut`: once such a part is given back, a proof knows how long the buffer is and not its bytes
    for k in 0..capture.len() / 5 {
        let i = records::inputs_from(places::record_at(capture, k));
        let t = engine.step(m.state, m.rows, i);
        places::put_answer(buffer, k, records::answer_bytes(t.acks, t.shown));
        m = t.machine;
    }
    m
}

// Replays a capture from any state handed in, and writes an answer record for each of its records; or refuses, writes nothing and hands back the
// state and the rows as given.
pub fn replay<E: Engine>(
    engine: &E,
    s: State,
    rows: [[u8; 4]; 4],
    capture: &[u8],
    buffer: &mut [u8],
) -> Result<Machine, Refused>
    ensures answer { replayed result ≡ replay_of (machine s rows) capture.now (length buffer.old) }
    ensures writes { buffer.new ≡ replay_writes (machine s rows) capture.now buffer.old }
{
    match refusal::judge(s, capture, buffer.len()) {
        Ok(()) => Ok(run(engine, s, rows, capture, buffer)),
        Err(why) => Err(Refused {
            why,
            machine: Machine { state: s, rows },
        }),
    }
}
