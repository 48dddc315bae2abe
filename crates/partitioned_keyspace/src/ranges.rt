// The partitions that cover an asked range, by the numbers of its bounds' keys.
ghost use Rattle.std.specs.Prelude.{◌≡◌};
ghost use Rattle.base.specs.Outcome.{answer};
ghost use Rattle.format.specs.Range.{BoundInside, range_in};
ghost use Rattle.partitioned_keyspace.specs.Calls.{covering_in, covered_of};
ghost use Rattle.partitioned_keyspace.specs.KeyPoints.{is_point, looked_up, covering_of};

use crate::Covered;
use crate::blocks::{IndexPoints, Reading, index_read};
use crate::point::{end_place, or_after, start_place};
use comparable_range::Kind;
use format::BoundSpan;

// Whether a range is one point.
fn is_point<'a>(ks: Kind, s: &'a [u8], ke: Kind, e: &'a [u8]) -> bool
    ensures { result ≡ is_point ks s.now ke e.now }
{
    match (ks, ke) {
        (Kind::Included, Kind::Included) => s == e,
        _ => false,
    }
}

// The end whose key is looked up: of a point no byte of it, since its start's key is the same.
fn looked_up(point: bool, end: BoundSpan) -> BoundSpan
    ensures { result ≡ looked_up point end }
{
    if point {
        BoundSpan {
            kind: Kind::Included,
            len: 0,
            ..end
        }
    } else {
        end
    }
}

// The covering of a point, or of a range by the kinds of its bounds.
fn covering(point: bool, ks: Kind, ke: Kind, x: IndexPoints) -> Covered
    ensures { covered_of result ≡ answer (covering_of point ks ke x) }
{
    if point {
        return Covered::Places(or_after(x.start), x.start.at_most);
    }
    let start = start_place(ks, x.start);
    Covered::Places(start, end_place(ke, start, x.partitions, x.end))
}

// The covering of a range that was read, once the index is: check 4 of the range comes before check 6 of the index.
pub fn covered_by<'a>(index: &'a [u8], range: &'a [u8], start: BoundSpan, end: BoundSpan) -> Covered
    requires fact_1 { BoundInside range.now start }
    requires fact_2 { BoundInside range.now end }
    ensures { covered_of result ≡ covering_in index.now (range_in range.now start end) }
{
    let ks = start.kind;
    let ke = end.kind;
    let s = format::key_of(range, start);
    let point = is_point(ks, s, ke, format::key_of(range, end));
    match index_read(index, s, format::key_of(range, looked_up(point, end))) {
        Reading::Stop(k) => Covered::Stop(k),
        Reading::At(x) => {
            if format::span::passes(range, start, range, end) {
                if x.ascends {
                    return covering(point, ks, ke, x);
                }
                return Covered::Stop(6);
            }
            Covered::Stop(4)
        }
    }
}
