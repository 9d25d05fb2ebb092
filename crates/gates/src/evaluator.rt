// The evaluation of a list of gate words over its block inputs.
ghost use Rattle.std.specs.Prelude.{◌≡◌, ◌+◌, ◌*◌, ◌^◌, ◌≤◌, ◌<◌, length};
ghost use Rattle.routing.specs.Four.{bit};
ghost use Rattle.gates.specs.Evaluation.{nets_after, early_refusal, fault, first_fault, value_of, evaluated};
ghost use Rattle.gates.specs.Refusals.{fault_in, answered};

use super::refusal::Refusal;

// Refusals 10 and 13.
fn early_refusal(words: &[u32], inputs: usize, input: u64) -> Result<(), Refusal>
    ensures { fault_in result ≡ fault (early_refusal words.now inputs input) 0 }
{
    if (inputs < 1) | (8 < inputs) {
        return Err(Refusal::OutsideLimits);
    }
    let gates = words.len();
    if (gates == 0) | (64 < inputs + gates) {
        return Err(Refusal::OutsideLimits);
    }
    if input >> inputs != 0 {
        return Err(Refusal::BitAbove);
    }
    Ok(())
}

// Refusals 11 and 12, word by word; the first word makes net `inputs`.
fn first_fault(words: &[u32], inputs: usize) -> Result<(), Refusal>
    requires { inputs + length words.now ≤ 64 }
    ensures { fault_in result ≡ first_fault words.now inputs 0 }
{
    for (i, &w) in words.iter().enumerate() {
        if words::wrong(w) {
            return Err(Refusal::WrongWord(i));
        }
        if words::late(w, (inputs + i) as u32) {
            return Err(Refusal::LateWord(i));
        }
    }
    Ok(())
}

// The nets v with net n, which was 0, set to b.
fn with_net(v: u64, n: usize, b: bool) -> u64
    requires { (n < 64) × (v < 2 ^ n) }
    ensures { (result ≡ v + bit b * 2 ^ n) × (result < 2 ^ (n + 1)) }
{
    v + (u64::from(b) << n)
}

// The nets after all gates. It goes by the words as they are: a word of an unknown kind makes a net 0.
fn run(words: &[u32], inputs: usize, input: u64) -> u64
    requires { (inputs + length words.now ≤ 64) × (input < 2 ^ inputs) }
    ensures { result ≡ nets_after words.now inputs input }
{
    let mut v = input;
    for (i, &w) in words.iter().enumerate() {
        v = with_net(v, inputs + i, words::gate(w, v));
    }
    v
}

// The nets of a list whose words were tested once and for all: it tests for 10 and 13 alone, and answers 0 where one of those would be given.
pub fn value(words: &[u32], inputs: usize, input: u64) -> u64
    ensures { result ≡ value_of words.now inputs input }
{
    match early_refusal(words, inputs, input) {
        Ok(()) => run(words, inputs, input),
        Err(_) => 0,
    }
}

// Evaluates a list of words: refusals 10, 13, then word by word 11 before 12; or the number whose bit n is net n.
pub fn evaluate(words: &[u32], inputs: usize, input: u64) -> Result<u64, Refusal>
    ensures { answered result ≡ evaluated words.now inputs input }
{
    early_refusal(words, inputs, input)?;
    first_fault(words, inputs)?;
    Ok(run(words, inputs, input))
}
