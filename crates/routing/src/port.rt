// An input number and an output number are different kinds: an output's holder is an `Input` and cannot stand where an `Output` is wanted.

#[derive(Clone, Copy)]
pub struct Input(pub u8);

#[derive(Clone, Copy)]
pub struct Output(pub u8);
