// What is said where the two engines differ. They do not, so the results of the gates are made up.
use super::show;
use comparison::Both;
use routing::Input;
use states::{Machine, State};
use text::Page;

// By the rules three answers of zeros and the reset state; by the gates a byte of answer 2, and the phase.
fn compared(rt: &HostRuntime, title: &[u8], byte: u8, waiting: bool) {
    let state = State {
        waiting,
        shut: [true; 4],
        holders: [Input(0); 4],
    };
    let rows = states::reset_rows();
    let p = Ok(Machine {
        state: states::reset_state(),
        rows,
    });
    let g = Ok(Machine { state, rows });
    let plain = [0u8; 15];
    let gates = [0, 0, 0, 0, 0, 0, 0, 0, 0, 0, 0, 0, byte, 0, 0];
    let b = Both {
        outcome: Ok(()),
        difference: comparison::disagreement(p, g, &plain, &gates),
    };
    let mut space = [0u8; 512];
    let mut page = Page::new(&mut space);
    verdict::put_verdict(&mut page, b, &plain);
    show::say(rt, title, b": ", page.text());
}

pub(crate) fn made_up(rt: &HostRuntime) {
    compared(
        rt,
        b"engines that differ in a byte of record 2",
        0x20,
        false,
    );
    compared(rt, b"engines that differ in the end state alone", 0, true);
}
