// Tries what document 01 gives as an example or an edge, and prints a line for each try: what was tried, and what a proved call answered.
#![tactic(auto)]

mod differences;
mod evaluations;
mod handed_in;
mod long;
mod replays;
mod show;
mod taking_up;
mod turns;

fn of_replays(rt: &HostRuntime) {
    replays::whole(rt);
    replays::empty(rt);
    replays::lengths(rt);
    replays::spare_bits(rt);
    replays::in_order(rt);
    replays::frame_starts(rt);
    long::records(rt);
    long::in_order(rt);
}

fn of_states(rt: &HostRuntime) {
    turns::edges(rt);
    handed_in::holders(rt);
    handed_in::waiting(rt);
    handed_in::open_twice(rt);
    handed_in::in_order(rt);
    handed_in::room(rt);
    handed_in::before_all_else(rt);
}

fn of_saved_states(rt: &HostRuntime) {
    taking_up::lengths(rt);
    taking_up::zero_bits(rt);
    taking_up::waiting(rt);
    taking_up::open_twice(rt);
    taking_up::in_order(rt);
}

fn of_gate_words(rt: &HostRuntime) {
    evaluations::given(rt);
    evaluations::inputs(rt);
    evaluations::nets(rt);
    evaluations::bits(rt);
    evaluations::kinds_and_counts(rt);
    evaluations::earlier_nets(rt);
    evaluations::in_order(rt);
}

fn main(rt: HostRuntime) {
    of_replays(&rt);
    of_states(&rt);
    of_saved_states(&rt);
    of_gate_words(&rt);
    differences::made_up(&rt);
}
