// A line for each try: its title, and what a proved call made of it.
ghost use Rattle.std.specs.Prelude.{◌++◌};
ghost use Rattle.text.specs.Page.{Put};

use capture::Rules;
use engine::Gates;
use input::Stream;
use states::Machine;
use text::Page;

// A line that ends in this text.
pub(crate) fn say(rt: &HostRuntime, title: &[u8], how: &[u8], text: &[u8]) {
    let a = input::write_all(rt, Stream::Output, title);
    let b = input::write_all(rt, Stream::Output, how);
    let c = input::write_all(rt, Stream::Output, text);
    if a.is_err() | b.is_err() | c.is_err() {
        let _ = input::write_all(rt, Stream::Error, b"cannot write the line\n");
    }
}

fn join(page: &mut Page, a: &[u8], b: &[u8], c: &[u8])
    ensures { Put page.old (a.now ++ b.now ++ c.now) page.new }
{
    page.put_text(a);
    page.put_text(b);
    page.put_text(c);
}

// A call that is asked by three parts, one behind the other.
fn ask<F: FnOnce(&mut Page, &[u8])>(
    rt: &HostRuntime,
    title: &[u8],
    how: &[u8],
    call: F,
    a: &[u8],
    b: &[u8],
    c: &[u8],
)
    requires { F.IsAlwaysCallable call }
{
    let mut space = [0u8; 512];
    let mut asked = Page::new(&mut space);
    join(&mut asked, a, b, c);
    let mut room = [0u8; 512];
    let mut page = Page::new(&mut room);
    call(&mut page, asked.text());
    say(rt, title, how, page.text());
}

pub(crate) fn cycled(rt: &HostRuntime, title: &[u8], image: &[u8], record: &[u8]) {
    ask(
        rt,
        title,
        b", one cycle by the rules: ",
        |page: &mut Page, asked: &[u8]| call_cycle::put_cycle(page, asked),
        image,
        record,
        b"",
    );
    ask(
        rt,
        title,
        b", one cycle by the gates: ",
        |page: &mut Page, asked: &[u8]| call_cycle::put_gate_cycle(page, asked),
        image,
        record,
        b"",
    );
}

// A capture from a state, with an answer buffer of `room` bytes.
pub(crate) fn replayed_from(
    rt: &HostRuntime,
    title: &[u8],
    image: &[u8],
    room: u8,
    capture: &[u8],
) {
    let length = [0, 0, 0, room];
    ask(
        rt,
        title,
        b", replayed by the rules: ",
        |page: &mut Page, asked: &[u8]| call_replay::put_replay(&Rules, page, asked),
        image,
        &length,
        capture,
    );
    ask(
        rt,
        title,
        b", replayed by the gates: ",
        |page: &mut Page, asked: &[u8]| call_replay::put_replay(&Gates, page, asked),
        image,
        &length,
        capture,
    );
}

pub(crate) fn replayed(rt: &HostRuntime, title: &[u8], room: u8, capture: &[u8]) {
    let reset = Machine {
        state: states::reset_state(),
        rows: states::reset_rows(),
    };
    replayed_from(rt, title, &image::image_of(reset), room, capture);
}

// A state into a buffer of `room` bytes.
pub(crate) fn saved(rt: &HostRuntime, title: &[u8], image: &[u8], room: u8) {
    ask(
        rt,
        title,
        b", saved: ",
        |page: &mut Page, asked: &[u8]| call_replay::put_save(page, asked),
        image,
        &[0, 0, 0, room],
        b"",
    );
}

pub(crate) fn taken_up(rt: &HostRuntime, title: &[u8], bytes: &[u8]) {
    ask(
        rt,
        title,
        b", taken up: ",
        |page: &mut Page, asked: &[u8]| call_replay::put_take_up(page, asked),
        bytes,
        b"",
        b"",
    );
}

// Gate words over so many block inputs, whose bits are those of `input`.
pub(crate) fn evaluated(rt: &HostRuntime, title: &[u8], inputs: u8, input: u16, words: &[u8]) {
    ask(
        rt,
        title,
        b", evaluated: ",
        |page: &mut Page, asked: &[u8]| call_gates::put_evaluate(page, asked),
        &u64::from(inputs).to_be_bytes(),
        &u64::from(input).to_be_bytes(),
        words,
    );
}
