// Writes the frames that standard input orders as a capture to standard output. An order that is refused or cut short ends it with a line on
// standard error, and nothing of its frame is written.
#![tactic(auto)]

ghost use Rattle.std.specs.Prelude.{◌≡◌, ◌+◌, ◌<◌, ◌≤◌, length, take, drop, IfOk};
ghost use Rattle.std.specs.Io.{ReadsAtMost};
ghost use Rattle.std.specs.Io.KnownBytes.{Consumes, IsAtEnd};
ghost use Rattle.orders.specs.Order.{order_size};

use input::Stream;
use std::io::{self, Read};

fn fill_between<R: Read>(
    from: &mut R,
    order: &mut [u8],
    have: usize,
    want: usize,
) -> io::Result<usize>
    requires { (have ≤ want) × (want ≤ length order.old) }
    ensures front { take have order.new ≡ take have order.old }
    ensures fits { IfOk result (λ n. have + n ≤ want) }
    ensures bytes { IfOk result (λ n. Consumes (R.remaining from.old) (R.remaining from.new)
        (take n (drop have order.new))) }
    ensures end { IfOk result (λ n. n ≡ 0 → have < want → IsAtEnd (R.remaining from.new)) }
{
    Ok(input::fill(from, &mut order[have..want])?)
}

// Reads as much as one order has, or what is left of the input.
fn read_order<R: Read>(from: &mut R, order: &mut [u8]) -> io::Result<usize>
    requires { length order.old ≡ 1032 }
    ensures bound { ReadsAtMost result order.new }
    ensures bytes { IfOk result (λ n. Consumes (R.remaining from.old) (R.remaining from.new)
        (take n order.new)) }
    ensures end { IfOk result (λ n. n < order_size (take n order.new) → IsAtEnd (R.remaining from.new)) }
{
    // how far the order goes is known only from what was read of it, so no slice or range can be walked
    let mut have: usize = 0;
    let mut want = orders::order_size(b"");
    while have < want {
        let n = fill_between(&mut *from, &mut *order, have, want)?;
        if n == 0 {
            break;
        }
        have += n;
        want = orders::order_size(&order[..have]);
    }
    Ok(have)
}

// Reads the order for frame k and writes what is said to it, or answers the line that ends the run. `out` has room for the longest frame, of 4,096 records.
fn answer_one<'a, R: Read>(
    rt: &HostRuntime,
    from: &mut R,
    order: &mut [u8],
    out: &'a mut [u8],
    k: u64,
) -> Result<(), &'a [u8]>
    requires { (length order.old ≡ 1032) × (20480 ≤ length out.old) }
{
    let Ok(n) = read_order(from, &mut *order) else {
        return Err(b"cannot read the orders\n");
    };
    match orders::answer(&mut *out, &order[..n], k) {
        Ok(length) => match input::write_all(rt, Stream::Output, &out[..length]) {
            Ok(()) => Ok(()),
            Err(_) => Err(b"cannot write the capture\n"),
        },
        Err(last) => Err(&out[..last.length]),
    }
}

// A proved loop has to end, and nothing says that the orders do: it counts its frames, up to a number that no run reaches.
fn main(rt: HostRuntime) {
    let mut from = rt.stdin();
    // room for the longest order: 4 bytes, and for each input a length, a header and 255 bytes of body
    let mut order = [0u8; 1032];
    let mut out = [0u8; 20480];
    for k in 0..u64::MAX {
        if let Err(last) = answer_one(&rt, &mut from, &mut order, &mut out, k) {
            let _ = input::write_all(&rt, Stream::Error, last);
            break;
        }
    }
}
