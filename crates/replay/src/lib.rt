// What the programs that replay recorded answers share: the records are read from standard input, each call's answer is
// compared with the recorded bytes, and what agrees is counted.
#![tactic(auto)]

pub mod answer;
pub mod buffer;
pub mod input;
pub mod kind;
pub mod piece;
pub mod records;
pub mod tally;
