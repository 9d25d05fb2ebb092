// What feeds each block, in the order in which the blocks are evaluated. A block input is a bit of the state, a bit of the cycle's inputs or a
// net of a block that was evaluated before; there is nothing else in this file, and no branch.
ghost use Rattle.std.specs.Prelude.{◌≡◌, false, [], ◌<◌, get_or};
ghost use Rattle.routing.specs.Four.{four, bit_at};
ghost use Rattle.routing.specs.Port.{input, holder_in};
ghost use Rattle.routing.specs.Header.{header_of};
ghost use Rattle.ways.specs.Turn.{number_of};
ghost use Rattle.ways.specs.Shut.{shut_next};
ghost use Rattle.wiring.specs.Wiring.{bits_of, decoding, phasing, requests_of, filtering, turning, selecting, choosing, switching, acking};

use blocks::{Requests, Timing};
use routing::Input;
use std::array;

// Bit k of a byte.
fn bit(byte: u8, k: u32) -> bool
    ensures { result ≡ bit_at k byte }
{
    words::net(u64::from(byte), k)
}

// Bit k of each of four bytes.
fn bits(row: [u8; 4], k: u32) -> [bool; 4]
    ensures { result ≡ bits_of row k }
{
    row.map(|byte| bit(byte, k))
}

// Decode, for one input: bits 0 to 3 of its header.
fn decode(header: u8) -> Requests
    ensures { result ≡ decoding header }
{
    blocks::decoded(
        bit(header, 0),
        bit(header, 1),
        bit(header, 2),
        bit(header, 3),
    )
}

pub fn decode_all(headers: [u8; 4]) -> [Requests; 4]
    ensures { result ≡ four (λ i. decoding (header_of headers i)) }
{
    headers.map(decode)
}

// Phase: the phase at the start, the frame start, and bit 0 of each header.
pub fn phase(waiting: bool, start: bool, headers: [u8; 4]) -> Timing
    ensures { result ≡ phasing waiting start headers }
{
    blocks::phased(waiting, start, bits(headers, 0))
}

// Filter, for output o: what the four decodings say of it, first of the high class, then of all.
fn filter(d: [Requests; 4], o: usize) -> [bool; 4]
    requires { o < 4 }
    ensures { result ≡ filtering (requests_of d) o }
{
    blocks::filtered(d.map(|of| of.high[o]), d.map(|of| of.asks[o]))
}

// Here and in `select_all` the closure has its own `ensures`: of a closure that gives an array the one that is inferred does not show which array.
pub fn filter_all(d: [Requests; 4]) -> [[bool; 4]; 4]
    ensures { result ≡ four (filtering (requests_of d)) }
{
    array::from_fn(
        |o|
            requires { o < 4 }
            ensures { result ≡ filtering (requests_of d) o }
        { filter(d, o) },
    )
}

// Shut flag, for each output: the flag, the frame start, the routing that the phase block found, and who remains.
pub fn shut_all(shut: [bool; 4], start: bool, routing: bool, remain: [[bool; 4]; 4]) -> [bool; 4]
    ensures { result ≡ four (λ o. shut_next (get_or shut o false) start routing (get_or remain o [])) }
{
    array::from_fn(|o| ways::shut_next(shut[o], start, routing, remain[o]))
}

// Turn, for one output: who remains, the holder's two bits, and the routing. The two bits that it makes are the next holder.
fn turn(remain: [bool; 4], holder: Input, routing: bool) -> Input
    ensures { result ≡ input (number_of (turning remain holder.0 routing)) }
{
    let next = ways::turned(remain, bit(holder.0, 0), bit(holder.0, 1), routing);
    Input(ways::number_of(next))
}

pub fn turn_all(remain: [[bool; 4]; 4], holders: [Input; 4], routing: bool) -> [Input; 4]
    ensures { result ≡ four (λ o. input (number_of (turning (get_or remain o []) (holder_in holders o).0 routing))) }
{
    array::from_fn(|o| turn(remain[o], holders[o], routing))
}

// Select, for one output: the holder's two bits and the shut flag.
fn select(holder: Input, shut: bool) -> [bool; 4]
    ensures { result ≡ selecting holder.0 shut }
{
    ways::selected(bit(holder.0, 0), bit(holder.0, 1), shut)
}

pub fn select_all(holders: [Input; 4], shut: [bool; 4]) -> [[bool; 4]; 4]
    ensures { result ≡ four (λ o. selecting (holder_in holders o).0 (get_or shut o false)) }
{
    array::from_fn(
        |o|
            requires { o < 4 }
            ensures { result ≡ selecting (holder_in holders o).0 (get_or shut o false) }
        { select(holders[o], shut[o]) },
    )
}

// Choose, for the acknowledgement to input i: the outputs' acknowledgements, and which outputs let the input through.
fn acknowledge(acks: [bool; 4], lets: [[bool; 4]; 4], i: usize) -> bool
    requires { i < 4 }
    ensures { result ≡ acking acks (λ o. get_or lets o []) i }
{
    ways::chosen(acks, array::from_fn(|o| lets[o][i]))
}

pub fn acknowledge_all(acks: [bool; 4], lets: [[bool; 4]; 4]) -> [bool; 4]
    ensures { result ≡ four (acking acks (λ o. get_or lets o [])) }
{
    array::from_fn(
        |i|
            requires { i < 4 }
        { acknowledge(acks, lets, i) },
    )
}

// Choose, for bit k of one switch byte: that bit of the four second latches, and whom the output lets through.
fn choose(second: [u8; 4], lets: [bool; 4], k: u32) -> bool
    ensures { result ≡ choosing second lets k }
{
    ways::chosen(bits(second, k), lets)
}

fn switch_byte(second: [u8; 4], lets: [bool; 4]) -> u8
    ensures { result ≡ switching second lets }
{
    let byte: [bool; 8] = array::from_fn(|k| choose(second, lets, k as u32));
    blocks::lines(&byte)
}

pub fn switch_all(second: [u8; 4], lets: [[bool; 4]; 4]) -> [u8; 4]
    ensures { result ≡ four (λ o. switching second (get_or lets o [])) }
{
    array::from_fn(|o| switch_byte(second, lets[o]))
}
