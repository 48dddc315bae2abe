// What of a range of the image lies in the gaps between a job's durable intervals, found without going over all gaps.
#![tactic(auto)]

mod next;
mod piece;

pub use next::{NextPiece, first_gap, next_piece};
pub use piece::Piece;
