// One gate word: its fields, the two ways in which it can be bad, and the value of its gate.
ghost use Rattle.std.specs.Prelude.{◌≡◌, false, get_or};
ghost use Rattle.routing.specs.Four.{bit_at};
ghost use Rattle.words.specs.Word.{fields, count_of, every, any, right_count, wrong, late, made, gate};

// Net n of the nets v; there are none past 63.
pub fn net(v: u64, n: u32) -> bool
    ensures { result ≡ bit_at n v }
{
    if n < 64 { (v >> n) % 2 == 1 } else { false }
}

// The net numbers in a word's four fields.
fn fields(w: u32) -> [u32; 4]
    ensures { result ≡ fields (λ n. n) w }
{
    [w >> 22, w >> 16, w >> 10, w >> 4].map(|from_here| from_here % 64)
}

// How many of its fields a word uses.
fn count(w: u32) -> usize
    ensures { result ≡ count_of w }
{
    (w % 16) as usize
}

fn right_count(kind: u32, n: usize) -> bool
    ensures { result ≡ right_count kind n }
{
    match kind {
        0 | 1 => n == 1,
        2..=5 => (2 <= n) & (n <= 4),
        6 | 7 => n == 2,
        8 => n == 4,
        _ => false, // no such kind
    }
}

// Refusal 11: wrong kind, count or unused field.
pub fn wrong(w: u32) -> bool
    ensures { result ≡ wrong w }
{
    let n = count(w);
    let unused = fields(w).iter().skip(n).any(|&m| m != 0);
    !right_count(w >> 28, n) | unused
}

// Refusal 12: the gate makes net m and reads net m or a later one.
pub fn late(w: u32, m: u32) -> bool
    ensures { result ≡ late w m }
{
    fields(w).iter().take(count(w)).any(|&n| m <= n)
}

// One of the values that a gate reads; it is 0 where the gate reads fewer.
fn at(read: &[bool], i: usize) -> bool
    ensures { result ≡ get_or read.now i false }
{
    i < read.len() && read[i]
}

// All of the values that a gate reads are 1.
// It reads on past a 0, unlike `all`: what a net holds decides nothing of what is done next.
fn every(read: &[bool]) -> bool
    ensures { result ≡ every read.now }
{
    read.iter().fold(true, |all, &b| all & b)
}

// One of them is 1, or more.
// It reads on past a 1, unlike the slice's own `any`: what a net holds decides nothing of what is done next.
fn any(read: &[bool]) -> bool
    ensures { result ≡ any read.now }
{
    read.iter().fold(false, |some, &b| some | b)
}

// What a gate of a kind makes of the values that it reads.
fn made(kind: u32, read: &[bool]) -> bool
    ensures { result ≡ made kind read.now }
{
    let x = at(read, 0);
    let y = at(read, 1);
    let all = every(read);
    let some = any(read);
    match kind {
        0 => x,
        1 => !x,
        2 => all,
        3 => !all,
        4 => some,
        5 => !some,
        6 => x ^ y,
        7 => !(x ^ y),
        8 => (x & y) | (at(read, 2) & at(read, 3)),
        _ => false,
    }
}

// The value of the gate w over the nets v.
pub fn gate(w: u32, v: u64) -> bool
    ensures { result ≡ gate w v }
{
    let read = fields(w).map(|n| net(v, n));
    made(w >> 28, &read[..count(w).min(4)])
}
