// Views: an id, a table, and the visible range if there is one.
ghost use Rattle.std.specs.Prelude.{◌≤◌, ◌+◌, length, drop};
ghost use Rattle.records.specs.Layouts.{table, view};
ghost use Rattle.records.specs.Spans.{VisibleFound, ViewFound, range_if};
ghost use Rattle.records.specs.There.{TableThere};

use crate::fields::{FlagRead, flag_of};
use crate::tables::{TableRead, TableSpan, table_at};
use comparable_range::Kind;
use format::{BoundSpan, RangeRead};

// Where a view's fields stand: id is the place of its id, past the place past it. Without a visible range, shown is false.
#[derive(Clone, Copy)]
pub struct ViewSpan {
    pub id: usize,
    pub table: TableSpan,
    pub shown: bool,
    pub start: BoundSpan,
    pub end: BoundSpan,
    pub past: usize,
}

#[derive(Clone, Copy)]
pub enum ViewRead {
    At(ViewSpan),
    Stop(u8),
}

// The visible range, if the flag says that there is one.
#[tactic(auto, unfolding(crate::specs::Spans::range_if, crate::specs::Form::read_if))]
fn visible_at(shown: bool, s: &[u8], at: usize) -> RangeRead
    requires { at ≤ length s.now }
    ensures { VisibleFound s.now shown (range_if shown (drop at s.now)) result }
{
    if shown {
        format::range_at(s, at)
    } else {
        let none = BoundSpan {
            kind: Kind::Unbounded,
            at,
            len: 0,
        };
        RangeRead::At {
            start: none,
            end: none,
            next: at,
        }
    }
}

// The view at a place whose table was read.
#[tactic(auto, using(crate::proofs::ViewExits::view_of_exits))]
fn view_of(s: &[u8], at: usize, t: TableSpan) -> ViewRead
    requires fact_1 { at + 16 ≤ length s.now }
    requires fact_2 { TableThere s.now (table.read (drop (at + 16) s.now)) t }
    ensures { ViewFound s.now (view.read (drop at s.now)) result }
{
    let p = t.past;
    if s.len() <= p {
        return ViewRead::Stop(1);
    }
    match flag_of(s[p]) {
        FlagRead::Stop(n) => ViewRead::Stop(n),
        FlagRead::Is(shown) => match visible_at(shown, s, p + 1) {
            RangeRead::Stop(n) => ViewRead::Stop(n),
            RangeRead::At {
                start,
                end,
                next: past,
            } => ViewRead::At(ViewSpan {
                id: at,
                table: t,
                shown,
                start,
                end,
                past,
            }),
        },
    }
}

// The view at a place.
#[tactic(auto, using(crate::proofs::ViewExits::view_exits))]
pub fn view_span(s: &[u8], at: usize) -> ViewRead
    requires { at ≤ length s.now }
    ensures { ViewFound s.now (view.read (drop at s.now)) result }
{
    if s.len() - at < 16 {
        return ViewRead::Stop(1);
    }
    match table_at(s, at + 16) {
        TableRead::Stop(n) => ViewRead::Stop(n),
        TableRead::At(t) => view_of(s, at, t),
    }
}
