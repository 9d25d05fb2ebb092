// An order's bytes, and the frame that they ask for.
ghost use Rattle.std.specs.Prelude.{◌≡◌, ◌+◌, ◌≤◌, length, take, drop};
ghost use Rattle.routing.specs.Four.{four};
ghost use Rattle.plans.specs.Meant.{meant};
ghost use Rattle.plans.specs.Refusal.{write_refusal};
ghost use Rattle.plans.specs.Refused.{refused_as};
ghost use Rattle.frames.specs.Writing.{frame_writes};
ghost use Rattle.orders.specs.Order.{order_cycles, order_acks, cell_size, place_of, order_size, plan_of};

use plans::{Plan, Refusal};

fn cycles_in(order: &[u8]) -> u16
    ensures { result ≡ order_cycles order.now }
{
    u16::from_be_bytes([image::byte_at(order, 1), image::byte_at(order, 2)])
}

fn acks_in(order: &[u8]) -> [bool; 4]
    ensures { result ≡ order_acks order.now }
{
    let b = image::byte_at(order, 3);
    [1, 2, 4, 8].map(|bit| b & bit != 0)
}

fn cell_size(order: &[u8], at: usize) -> usize
    ensures { (result ≡ cell_size order.now at) × (result ≤ 256) }
{
    let n = image::byte_at(order, at);
    if n == 0 { 0 } else { usize::from(n) + 1 }
}

// The byte behind the cell whose body's length stands in byte `at`.
fn next_place(order: &[u8], at: usize) -> usize
    requires { at ≤ 775 }
    ensures { (result ≡ at + 1 + cell_size order.now at) × (result ≤ at + 257) }
{
    at + 1 + cell_size(order, at)
}

// The cell whose body's length stands in byte `at`; of bytes that are missing there are none in it.
fn cell_at(order: &[u8], at: usize) -> &[u8]
    ensures { result.now ≡ take (cell_size order.now at) (drop (at + 1) order.now) }
{
    if at < order.len() {
        text::part(order, at + 1, cell_size(order, at))
    } else {
        &[]
    }
}

// The bytes in which the lengths of the bodies of inputs 0..3 stand.
fn places(order: &[u8]) -> [usize; 4]
    ensures places { result ≡ four (place_of order.now) }
    ensures early { place_of order.now 3 ≤ 775 }
{
    let second = next_place(order, 4);
    let third = next_place(order, second);
    [4, second, third, next_place(order, third)]
}

// How many bytes an order has, from its first bytes; as long as some are missing it may turn out to have more.
pub fn order_size(order: &[u8]) -> usize
    ensures { (result ≡ order_size order.now) × (result ≤ 1032) }
{
    let places = places(order);
    next_place(order, places[3])
}

// The frame that an order asks for.
pub(crate) fn plan_in(order: &[u8]) -> Plan<'_>
    ensures { meant result ≡ plan_of order.now }
{
    Plan {
        gap: image::byte_at(order, 0),
        cycles: cycles_in(order),
        acks: acks_in(order),
        cells: places(order).map(|at| cell_at(order, at)),
    }
}

// Writes the frame that an order asks for, or refuses it.
pub fn write_order(out: &mut [u8], order: &[u8]) -> Result<(), Refusal>
    ensures number { refused_as result ≡ write_refusal (plan_of order.now) (length out.old) }
    ensures writes { out.new ≡ frame_writes (plan_of order.now) out.old }
{
    frames::write_frame(out, &plan_in(order))
}
