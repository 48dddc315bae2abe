// The checks 4, 5 and 7 of one view, each over the bytes of the image that it stands in.
ghost use Rattle.std.specs.Prelude.{◌≡◌, true};
ghost use Rattle.comparable_range.specs.Range.{cmp_bound};
ghost use Rattle.key.specs.Order.{at_most};
ghost use Rattle.format.specs.Range.{BoundInside, bound_in};
ghost use Rattle.records.specs.Spans.{table_in, view_in, TableInside, ViewInside};
ghost use Rattle.manifest.specs.Checks.{visible_passes, keys_in_order, table_passes};
ghost use Rattle.manifest.specs.Faults.{fault_of, least, ordered, view_checks};
ghost use Rattle.manifest.specs.Spans.{EffectiveFound, plain_start, size_fits};

use crate::ranges::{own_end, own_start};
use comparable_range::Kind;
use format::BoundSpan;
use format::span::RangeSpan;
use records::{TableSpan, ViewSpan};

// Check 4.
#[tactic(auto, unfolding(crate::specs::Checks::visible_passes))]
fn visible_passes(s: &[u8], v: ViewSpan) -> bool
    requires { ViewInside s.now v }
    ensures { result ≡ visible_passes (view_in s.now v) }
{
    !v.shown || format::span::passes(s, v.start, s, v.end)
}

// Check 5 of a table: its own range passes exactly if its last key is not below its first.
#[tactic(auto, using(crate::proofs::CheckExits::keys_exits))]
pub fn keys_in_order(s: &[u8], t: TableSpan) -> bool
    requires { TableInside s.now t }
    ensures { result ≡ keys_in_order (table_in s.now t) }
{
    format::span::passes(s, own_start(t), s, own_end(t))
}

// Whether the visible range, if there is one, does not start excluded.
fn starts_plain(v: ViewSpan) -> bool
    ensures { result ≡ plain_start v }
{
    !v.shown || matches!(v.start.kind, Kind::Unbounded | Kind::Included)
}

// Check 5, with the view's effective range at hand: it passes exactly if the two ranges meet, and then the table's last key
// is not below its first.
#[tactic(auto, using(crate::proofs::CheckExits::table_exits))]
fn table_passes(s: &[u8], v: ViewSpan, e: RangeSpan) -> bool
    requires { EffectiveFound s.now v e }
    ensures { result ≡ table_passes (view_in s.now v) }
{
    starts_plain(v) && format::span::passes(s, e.start, s, e.end)
}

const MOST_BYTES: u64 = 1 << 53;

// Check 7: the sum is not made, so it cannot wrap.
#[tactic(auto, unfolding(crate::specs::Spans::size_fits))]
pub fn size_passes(offset: u64, len: u64) -> bool
    ensures { result ≡ size_fits offset len }
{
    offset <= MOST_BYTES && len <= MOST_BYTES - offset
}

// The number of the first check of 4, 5 and 7 that a view fails, or 8.
#[tactic(auto, unfolding(crate::specs::Faults::fault_of, crate::specs::Faults::view_checks, crate::specs::Checks::size_passes, crate::specs::Spans::size_fits))]
pub fn view_fault(s: &[u8], v: ViewSpan, e: RangeSpan) -> u8
    requires fact_1 { ViewInside s.now v }
    requires fact_2 { EffectiveFound s.now v e }
    ensures { result ≡ fault_of (view_checks (view_in s.now v)) }
{
    if !visible_passes(s, v) {
        4
    } else if !table_passes(s, v, e) {
        5
    } else if !size_passes(v.table.index_offset, v.table.index_len) {
        7
    } else {
        8
    }
}

// Check 6 of two starts, one after the other.
#[tactic(auto, unfolding(crate::specs::Faults::fault_of))]
pub fn order_fault(s: &[u8], before: BoundSpan, start: BoundSpan) -> u8
    requires fact_1 { BoundInside s.now before }
    requires fact_2 { BoundInside s.now start }
    ensures { result ≡ fault_of (ordered (at_most (cmp_bound true (bound_in s.now before) (bound_in s.now start)))) }
{
    if format::span::compare(s, before, s, start, true).is_le() {
        8
    } else {
        6
    }
}

// The lesser of two numbers.
#[tactic(auto, using(crate::proofs::Steps::min_is_least))]
pub fn lesser(a: u8, b: u8) -> u8
    ensures { result ≡ least a b }
{
    a.min(b)
}
