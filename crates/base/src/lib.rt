// What every crate shares. See specs/ for the shape of an outcome.
#![tactic(auto)]

// What a call that writes into a lent buffer answers: how many bytes stand at its front, or the number of the stop.
#[derive(Clone, Copy)]
pub enum Written {
    Wrote(usize),
    Stop(u8),
}

// What a test answers, or the number of the stop.
#[derive(Clone, Copy)]
pub enum Tested {
    Is(bool),
    Stop(u8),
}
