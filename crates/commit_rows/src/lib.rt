// The tables that a commit's stages hand on, some numbers to a row: the gaps between durable intervals, the parts of the job,
// the runs of the old image, and the views of the new one.
#![tactic(auto)]

mod bounds;
mod gaps;
mod parts;
mod rows;
mod runs;

pub use gaps::{gap_row, put_gap};
pub use parts::{PartSpan, part_row, put_part};
pub use rows::{Form, Row, put_row, row_at};
pub use runs::{RunKind, RunRow, put_run_row, run_row};
