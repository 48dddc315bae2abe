// A part of the job in a row of ten numbers.
ghost use Rattle.std.specs.Prelude.{◌≡◌, ◌≤◌, ◌+◌, ◌*◌, length};
ghost use Rattle.base.specs.Rows.{row_at};
ghost use Rattle.base.specs.Splice.{splice};
ghost use Rattle.commit_rows.specs.Numbers.{part_of, part_numbers};

use crate::bounds::{bound_at, kind_number};
use format::BoundSpan;

// Whether a part has a durable interval, whether it is completed, how many outputs it has and the place of the first, and
// the interval's bounds. Without an interval they are not read.
#[derive(Clone, Copy)]
pub struct PartSpan {
    pub durable: bool,
    pub completed: bool,
    pub outputs: usize,
    pub first: usize,
    pub start: BoundSpan,
    pub end: BoundSpan,
}

pub fn part_row(parts: &[usize], k: usize) -> PartSpan
    requires { k * 10 + 10 ≤ length parts.now }
    ensures { result ≡ part_of (row_at 10 k parts.now) }
{
    let at = k * 10;
    PartSpan {
        durable: parts[at] == 1,
        completed: parts[at + 1] == 1,
        outputs: parts[at + 2],
        first: parts[at + 3],
        start: bound_at(parts, at + 4),
        end: bound_at(parts, at + 7),
    }
}

pub fn put_part(parts: &mut [usize], k: usize, p: PartSpan)
    requires { k * 10 + 10 ≤ length parts.old }
    ensures { parts.new ≡ splice parts.old (k * 10) (part_numbers p) }
{
    let at = k * 10;
    parts[at..at + 10].copy_from_slice(&[
        usize::from(p.durable),
        usize::from(p.completed),
        p.outputs,
        p.first,
        kind_number(p.start.kind),
        p.start.at,
        p.start.len,
        kind_number(p.end.kind),
        p.end.at,
        p.end.len,
    ]);
}
