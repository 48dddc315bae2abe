// Ranges that stand in a slice: points, and subranges that follow a prefix.
ghost use Rattle.std.specs.Prelude.{◌≡◌, length, take, drop, ◌&&◌, ◌≤◌};
ghost use Rattle.base.specs.Outcome.{reported, lent};
ghost use Rattle.comparable_range.specs.Range.{range_of, non_empty};
ghost use Rattle.format.specs.Range.{BoundInside, range_in};
ghost use Rattle.bytes_range.specs.Prefix.{as_point, from_prefix_and_subrange};
ghost use Rattle.bytes_range.specs.Writing.{point_if, range_joins, joined_to};

use base::Written;
use comparable_range::Kind;
use format::BoundSpan;

// Whether a range is one point, which is then its start's key.
pub fn is_point(s: &[u8], start: BoundSpan, end: BoundSpan) -> bool
    requires fact_1 { BoundInside s.now start }
    requires fact_2 { BoundInside s.now end }
    ensures { point_if result (take start.len (drop start.at s.now)) ≡ as_point (range_in s.now start end) }
{
    crate::as_point(
        start.kind,
        format::key_of(s, start),
        end.kind,
        format::key_of(s, end),
    )
}

// Whether both keys of a subrange follow a prefix within 1,024 bytes.
fn joins(p: &[u8], ks: Kind, s: &[u8], ke: Kind, e: &[u8]) -> bool
    requires { length p.now ≤ 1024 }
    ensures { result ≡ range_joins p.now (range_of ks s.now ke e.now) }
{
    crate::joins_within(p, ks, s) && crate::joins_within(p, ke, e)
}

// Whether a subrange passes `non_empty`, and does so after the prefix.
#[tactic(auto, using(crate::proofs::Spans::both_pass))]
fn join_passes(p: &[u8], ks: Kind, s: &[u8], ke: Kind, e: &[u8]) -> bool
    ensures { result ≡ (non_empty (range_of ks s.now ke e.now) && non_empty (from_prefix_and_subrange p.now (range_of ks s.now ke e.now))) }
{
    comparable_range::non_empty(ks, s, ke, e) && !crate::leaves_none(p, ks, s, ke, e)
}

// The range of a prefix and of a subrange that stands in a slice, written to the front of a buffer.
#[tactic(auto, using(crate::proofs::Spans::join_calls))]
pub fn join(p: &[u8], l: &[u8], start: BoundSpan, end: BoundSpan, out: &mut [u8]) -> Written
    requires fact_1 { length p.now ≤ 1024 }
    requires fact_2 { BoundInside l.now start }
    requires fact_3 { BoundInside l.now end }
    ensures value { result ≡ reported (joined_to (length out.old) p.now (range_in l.now start end)) }
    ensures out_after { out.new ≡ lent out.old (joined_to (length out.old) p.now (range_in l.now start end)) }
{
    let ks = start.kind;
    let ke = end.kind;
    let s = format::key_of(l, start);
    let e = format::key_of(l, end);
    if !joins(p, ks, s, ke, e) {
        return Written::Stop(3);
    }
    if !join_passes(p, ks, s, ke, e) {
        return Written::Stop(4);
    }
    crate::from_prefix_and_subrange(p, ks, s, ke, e, out)
}
