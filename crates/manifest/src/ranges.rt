// A table's own range and a view's effective range, as bounds that stand in the image.
ghost use Rattle.std.specs.Prelude.{◌≡◌};
ghost use Rattle.records.specs.Spans.{view_in, ViewInside};
ghost use Rattle.manifest.specs.Ranges.{effective};
ghost use Rattle.manifest.specs.Spans.{BoundFound, EffectiveFound, first_span, last_span};

use comparable_range::Kind;
use format::span::RangeSpan;
use format::{BoundSpan, span};
use records::{TableSpan, ViewSpan};

// Where a table's own range starts.
pub fn own_start(t: TableSpan) -> BoundSpan
    ensures { result ≡ first_span t }
{
    BoundSpan {
        kind: Kind::Included,
        at: t.first_at,
        len: t.first_len,
    }
}

// Where it ends.
pub fn own_end(t: TableSpan) -> BoundSpan
    ensures { result ≡ last_span t }
{
    let kind = if t.flagged {
        Kind::Included
    } else {
        Kind::Unbounded
    };
    BoundSpan {
        kind,
        at: t.last_at,
        len: t.last_len,
    }
}

// Where a view's effective range starts: where its table's own does, or the visible range if that is greater. Apart from the
// end, so that each is small enough to be made part of a loop: a call copies the view.
#[tactic(auto, using(crate::proofs::RangeExits::bound_exits))]
pub fn effective_start(s: &[u8], v: ViewSpan) -> BoundSpan
    requires { ViewInside s.now v }
    ensures { BoundFound s.now (effective (view_in s.now v)).start result }
{
    let start = own_start(v.table);
    if v.shown {
        span::bound_of(span::greater_start(s, start, s, v.start), start, v.start)
    } else {
        start
    }
}

// Where it ends.
#[tactic(auto, using(crate::proofs::RangeExits::bound_exits))]
pub fn effective_end(s: &[u8], v: ViewSpan) -> BoundSpan
    requires { ViewInside s.now v }
    ensures { BoundFound s.now (effective (view_in s.now v)).end result }
{
    let end = own_end(v.table);
    if v.shown {
        span::bound_of(span::lesser_end(s, end, s, v.end), end, v.end)
    } else {
        end
    }
}

// The effective range of a view: its table's own range, cut by the visible range.
#[tactic(auto, using(crate::proofs::RangeExits::both_bounds))]
pub fn effective(s: &[u8], v: ViewSpan) -> RangeSpan
    requires { ViewInside s.now v }
    ensures { EffectiveFound s.now v result }
{
    RangeSpan {
        start: effective_start(s, v),
        end: effective_end(s, v),
    }
}
