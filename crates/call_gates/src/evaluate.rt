// E: the evaluator.
ghost use Rattle.std.specs.Prelude.{◌≡◌, ◌≤◌, length, take};
ghost use Rattle.text.specs.Page.{Put};
ghost use Rattle.gates.specs.Refusals.{answered};
ghost use Rattle.call_gates.specs.Evaluate.{fitting, gate_words, evaluated_text, evaluate_line};

use gates::Refusal;
use text::Page;

// Two numbers of 8 bytes, then at most 128 words of 4 bytes.
fn fits(payload: &[u8]) -> bool
    ensures { result ≡ fitting payload.now }
{
    let n = payload.len();
    (16 <= n) & (n % 4 == 0) & (n <= 528)
}

// The array has room for the most words that fit, since there is no heap.
fn words_from(payload: &[u8], n: usize) -> [u32; 128]
    requires { n ≤ 128 }
    ensures { (take n result ≡ gate_words payload.now n) × (128 ≡ length result) }
{
    let mut words = [0u32; 128];
    for i in 0..n {
        words[i] = parts::word_at(payload, (16 + 4 * i) as u16) as u32;
    }
    words
}

// The three as they are printed: there 0 is done.
fn put_answer(page: &mut Page, number: u8, index: usize, value: u64)
    ensures { Put page.old (evaluated_text (record { number = number; index = index; value = value })) page.new }
{
    parts::put_number(page, u64::from(number));
    parts::put_number(page, index as u64);
    page.put_hex(&value.to_be_bytes());
    page.put_byte(b'\n');
}

fn put_evaluated(page: &mut Page, e: Result<u64, Refusal>)
    ensures { Put page.old (evaluated_text (answered e)) page.new }
{
    match e {
        Ok(value) => put_answer(page, 0, 0, value),
        Err(refusal) => put_answer(page, refusal.number(), refusal.index().unwrap_or(0), 0),
    }
}

pub fn put_evaluate(page: &mut Page, payload: &[u8])
    ensures { Put page.old (evaluate_line payload.now) page.new }
{
    if !fits(payload) {
        return page.put_text(b"malformed\n");
    }
    let n = (payload.len() - 16) / 4;
    let words = words_from(payload, n);
    let inputs = parts::long_at(payload, 0) as usize;
    let input = parts::long_at(payload, 8);
    put_evaluated(page, gates::evaluate(&words[..n], inputs, input));
}
