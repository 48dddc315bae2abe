// The pieces of a view in the gaps, as rows.
ghost use Rattle.std.specs.Prelude.{◌≡◌, ◌≤◌, length};
ghost use Rattle.comparable_range.specs.Range.{of};
ghost use Rattle.manifest.specs.Ranges.{effective};
ghost use Rattle.commit_durable.specs.Tables.{GapsHold};
ghost use Rattle.commit_gaps.specs.Ordered.{GapsOrdered};
ghost use Rattle.commit_gaps.specs.Found.{Reached};
ghost use Rattle.commit_entries.specs.Planned.{PlanReady};
ghost use Rattle.commit_plan.specs.Held.{view_at, ViewReady};
ghost use Rattle.commit_plan.specs.Views.{RangeSmall, whole_row, cut_row, PlannedPiece, PlannedView};

use crate::held::ViewHeld;
use commit_entries::{Plan, add_cut, add_row};
use commit_gaps::Piece;
use commit_rows::{Form, Row};
use comparable_range::{Kind, Side};
use format::span::RangeSpan;
use format::{BoundSpan, span};

// The row of a view that stays as it is. Its bounds are not read.
fn whole_row(h: ViewHeld, gap: usize) -> Row
    requires { gap ≤ 65 }
    ensures { result ≡ whole_row h gap }
{
    let none = BoundSpan {
        kind: Kind::Unbounded,
        at: 0,
        len: 0,
    };
    Row {
        form: Form::Whole,
        bucket: gap * 2,
        at: h.at,
        past: h.past,
        start: none,
        end: none,
        ten: 0,
    }
}

// The row of a view that is cut. Each bound is the view's (first) or the gap's (second).
fn cut_row(h: ViewHeld, gap: usize, bounds: RangeSpan, a: Side, b: Side) -> Row
    requires { gap ≤ 65 }
    ensures { result ≡ cut_row h gap a b (of a h.range.start bounds.start) (of b h.range.end bounds.end) }
{
    Row {
        form: Form::Cut(a, b),
        bucket: gap * 2,
        at: h.at,
        past: h.end,
        start: span::bound_of(a, h.range.start, bounds.start),
        end: span::bound_of(b, h.range.end, bounds.end),
        ten: 0,
    }
}

// One piece of a view, in a gap with some bounds.
fn plan_piece(
    image: &[u8],
    ids: &[u8],
    rows: &mut [usize],
    h: ViewHeld,
    gap: usize,
    bounds: RangeSpan,
    piece: Piece,
    p: Plan,
) -> Plan
    requires fact_1 { ViewReady image.now h }
    requires fact_2 { gap ≤ 65 }
    requires fact_3 { RangeSmall bounds }
    requires fact_4 { PlanReady ids.now 1099511627776 p }
    ensures { PlannedPiece image.now ids.now h gap bounds piece p rows.old result rows.new }
{
    match piece {
        Piece::Whole => add_row(rows, p, whole_row(h, gap)),
        Piece::Cut(a, b) => {
            let row = cut_row(h, gap, bounds, a, b);
            add_cut(commit_ids::view_id_at(image, h.at), ids, rows, p, row)
        }
    }
}

// All pieces of a view, from the first gap on that it reaches.
pub fn plan_view<'a>(
    image: &'a [u8],
    job: &'a [u8],
    ids: &[u8],
    gaps: &[usize],
    m: usize,
    rows: &mut [usize],
    h: ViewHeld,
    p: Plan,
) -> Plan
    requires view_ready_1 { ViewReady image.now h }
    requires view_ready_2 { length job.now ≤ 262144 }
    requires view_ready_3 { GapsHold job.now m gaps.now }
    requires view_ready_4 { GapsOrdered job.now }
    requires reached_1 { Reached (effective (view_at image.now h.at)).start job.now m h.gap }
    requires reached_2 { PlanReady ids.now 549755813888 p }
    ensures { PlannedView image.now job.now ids.now (view_at image.now h.at) p rows.old result rows.new }
{
    let mut g = h.gap;
    let mut plan = p;
    while let Some(n) = commit_gaps::next_piece(image, h.range, job, gaps, m, g) {
        plan = plan_piece(image, ids, rows, h, n.gap, n.bounds, n.piece, plan);
        g = n.next;
    }
    plan
}
