// Reading until a buffer is full or the input ends, and counting what comes after it.
ghost use Rattle.std.specs.Prelude.{◌≡◌, ◌+◌, ◌^◌, ◌<◌, ◌≤◌, ℕ, List, length, take, drop, IfOk, IfErr, IfSome, OnOk, OnErr};
ghost use Rattle.std.specs.Io.{ReadsAtMost};
ghost use Rattle.std.specs.Io.KnownBytes.{Consumes, Keeps, IsAtEnd};

use std::io::{self, Error, ErrorKind, Read};

// A read that failed, and how many bytes had been read before it.
#[derive(Debug, Drop)]
pub struct CutOff {
    pub length: u64,
    pub why: Error,
}

impl From<CutOff> for Error {
    fn from(cut: CutOff) -> Error
        ensures { result ≡ cut.why }
    {
        cut.why
    }
}

fn read_from<R: Read>(from: &mut R, buf: &mut [u8], at: usize) -> io::Result<usize>
    requires { at < length buf.old }
    ensures front { take at buf.new ≡ take at buf.old }
    ensures fits { IfOk result (λ n. at + n ≤ length buf.new) }
    ensures bytes { IfOk result (λ n. Consumes (R.remaining from.old) (R.remaining from.new)
        (take n (drop at buf.new))) }
    ensures end { IfOk result (λ n. n ≡ 0 → IsAtEnd (R.remaining from.new)) }
    ensures err { OnErr result (Keeps (R.remaining from.old) (R.remaining from.new)) }
{
    from.read(&mut buf[at..])
}

// Reads until the buffer is full or the input ends, and answers how many bytes stand at its start. What was read before a failure stands there too.
pub fn fill<R: Read>(from: &mut R, buf: &mut [u8]) -> Result<usize, CutOff>
    ensures bound { ReadsAtMost result buf.new }
    ensures bytes { IfOk result (λ n. Consumes (R.remaining from.old) (R.remaining from.new)
        (take n buf.new)) }
    ensures end { IfOk result (λ n. n < length buf.new → IsAtEnd (R.remaining from.new)) }
    ensures err { IfErr result (λ cut. (cut.length ≤ length buf.new)
        × Consumes (R.remaining from.old) (R.remaining from.new) (take cut.length buf.new)) }
{
    // not a slice that shrinks: the loop's facts would have no name for the bytes that it has passed, so `bytes` could not be kept
    let mut at: usize = 0;
    while at < buf.len() {
        match read_from(&mut *from, &mut *buf, at) {
            Ok(0) => break,
            Ok(n) => at += n,
            Err(why) => {
                return Err(CutOff {
                    length: at as u64,
                    why,
                });
            }
        }
    }
    Ok(at)
}

// A proved loop has to end, and nothing says that an input does: it takes its turns, up to a number that no run uses up.
const TURNS: u64 = 1 << 47;

fn count_rest<R: Read>(from: &mut R) -> Result<u64, CutOff>
    ensures bound { IfOk result (λ n. n ≤ 2 ^ 63) }
    ensures bytes { IfOk result (λ n. (rest : List ℕ) × (length rest ≡ n)
        × Consumes (R.remaining from.old) (R.remaining from.new) rest) }
    ensures end { OnOk result (IsAtEnd (R.remaining from.new)) }
    ensures err { IfErr result (λ cut. (cut.length ≤ 2 ^ 63) × ((rest : List ℕ) × (length rest ≡ cut.length)
        × Consumes (R.remaining from.old) (R.remaining from.new) rest)) }
{
    let mut space = [0u8; 65536];
    let mut total: u64 = 0;
    // not `io::copy` into a sink: it tries an interrupted read again, and here that is a failure
    for _ in 0..TURNS {
        match from.read(&mut space) {
            Ok(0) => return Ok(total),
            Ok(n) => total += n as u64,
            Err(why) => return Err(CutOff { length: total, why }),
        }
    }
    Err(CutOff {
        length: total,
        why: Error::new(ErrorKind::TimedOut, "the input does not end"),
    })
}

// Keeps the start of the input in the buffer and counts all of it.
pub fn take_in<R: Read>(from: &mut R, buf: &mut [u8]) -> Result<u64, CutOff>
    ensures bound { IfOk result (λ n. n ≤ length buf.old + 2 ^ 63) }
    ensures total { IfOk result (λ n. IfSome (R.remaining from.old) (λ all. n ≡ length all)) }
    ensures kept { IfOk result (λ n. IfSome (R.remaining from.old)
        (λ all. take n buf.new ≡ take (length buf.new) all)) }
    ensures end { OnOk result (IsAtEnd (R.remaining from.new)) }
    ensures err { IfErr result (λ cut. (cut.length ≤ length buf.old + 2 ^ 63) × ((come : List ℕ) × (length come ≡ cut.length)
        × Consumes (R.remaining from.old) (R.remaining from.new) come)) }
{
    let kept = fill(&mut *from, &mut *buf)?;
    if kept < buf.len() {
        return Ok(kept as u64);
    }
    match count_rest(from) {
        Ok(rest) => Ok(kept as u64 + rest),
        Err(cut) => Err(CutOff {
            length: kept as u64 + cut.length,
            why: cut.why,
        }),
    }
}
