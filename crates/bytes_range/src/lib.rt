// Ranges from prefixes, and ranges that are one point, as bytes_range.rs has them.
#![tactic(auto)]

pub mod span;

ghost use Rattle.std.specs.Prelude.{◌≡◌, ◌≤◌, ◌<◌, ◌+◌, ◌-◌, length, get_or, take, drop};
ghost use Rattle.base.specs.Outcome.{reported, lent, written_to};
ghost use Rattle.base.specs.Splice.{splice};
ghost use Rattle.comparable_range.specs.Range.{unbounded, bound_of, range_of};
ghost use Rattle.format.specs.Range.{kind_of_bound, write_bound};
ghost use Rattle.bytes_range.specs.Prefix.{kept_of, join_start, join_end, as_point};
ghost use Rattle.bytes_range.specs.Writing.{all_ff, kept_for, joins_within, Joins, start_bytes, end_bytes, range_bytes, point_if};
ghost use Rattle.bytes_range.specs.Laws.{leaves_none};

use base::Written;
use comparable_range::Kind;

// Whether the eight bytes from i are all FF. Their number tells, which the compiler reads by one load.
#[tactic(auto, using(crate::proofs::Dropped::eight_seen))]
fn ff8(p: &[u8], i: usize) -> bool
    requires { i + 8 ≤ length p.now }
    ensures { result ≡ all_ff (take 8 (drop i p.now)) }
{
    key::reversed(p, i) == u64::MAX
}

// The same of sixteen, thirty-two and sixty-four bytes, by halves. They stay three: Rattle has no const argument that is computed.
fn ff16(p: &[u8], i: usize) -> bool
    requires { i + 16 ≤ length p.now }
    ensures { result ≡ all_ff (take 16 (drop i p.now)) }
{
    if ff8(p, i) {
        return ff8(p, i + 8);
    }
    false
}

fn ff32(p: &[u8], i: usize) -> bool
    requires { i + 32 ≤ length p.now }
    ensures { result ≡ all_ff (take 32 (drop i p.now)) }
{
    if ff16(p, i) {
        return ff16(p, i + 16);
    }
    false
}

fn ff64(p: &[u8], i: usize) -> bool
    requires { i + 64 ≤ length p.now }
    ensures { result ≡ all_ff (take 64 (drop i p.now)) }
{
    if ff32(p, i) {
        return ff32(p, i + 32);
    }
    false
}

// Of n bytes that end in FF, how many are left once the last sixty-four, eight or one are dropped, which are all FF.
fn fewer(p: &[u8], n: usize) -> usize
    requires fact_1 { n ≤ length p.now }
    requires fact_2 { (n ≡ 0 → ⊥) }
    requires fact_3 { get_or p.now (n - 1) 0 ≡ 255 }
    ensures upper_bound { result < n }
    ensures result_value { kept_of p.now result ≡ kept_of p.now n }
{
    if 64 <= n {
        if ff64(p, n - 64) {
            return n - 64;
        }
    }
    if 8 <= n {
        if ff8(p, n - 8) {
            return n - 8;
        }
    }
    n - 1
}

// How many of the first n bytes are left once trailing FF bytes are dropped.
// By recursion on n, which falls with each FF dropped, as document 01 binds it: by many a call, since the compiler makes no loop
// of the calls.
fn kept(p: &[u8], n: usize) -> usize
    requires { n ≤ length p.now }
    ensures { result ≡ kept_of p.now n }
{
    if n == 0 {
        return 0;
    }
    let m = n - 1;
    if p[m] == 255 {
        return kept(p, fewer(p, n));
    }
    n
}

// How many bytes of a prefix are kept for an unbounded end; none for an end with a key, which is not made of them.
// Counted once, for the end's kind, its size and its bytes.
#[tactic(auto, unfolding(crate::specs::Writing::kept_for))]
fn kept_for(p: &[u8], k: Kind) -> usize
    ensures { result ≡ kept_for k p.now }
{
    match k {
        Kind::Unbounded => kept(p, p.len()),
        Kind::Included | Kind::Excluded => 0,
    }
}

// The kind of a start that follows a prefix.
#[tactic(auto, unfolding(crate::specs::Prefix::join_start))]
fn start_kind(p: &[u8], k: Kind, s: &[u8]) -> Kind
    ensures { result ≡ kind_of_bound (join_start p.now (bound_of k s.now)) }
{
    match k {
        Kind::Unbounded if !p.is_empty() => Kind::Included,
        k => k,
    }
}

// The kind of an end that follows a prefix.
#[tactic(auto, unfolding(crate::specs::Prefix::join_end, crate::specs::Prefix::next_prefix, crate::specs::Prefix::raised, crate::specs::Writing::kept_for))]
fn end_kind(p: &[u8], k: Kind, e: &[u8], n: usize) -> Kind
    requires { n ≡ kept_for k p.now }
    ensures { result ≡ kind_of_bound (join_end p.now (bound_of k e.now)) }
{
    match k {
        Kind::Unbounded if n != 0 => Kind::Excluded,
        k => k,
    }
}

// How many bytes a start takes that follows a prefix.
#[tactic(auto, using(format::proofs::Layouts::key_length, std::proofs::lemmas::Grind::common_steps), unfolding(crate::specs::Prefix::join_start, crate::specs::Writing::joins_within, format::specs::Range::write_bound))]
fn start_size(p: &[u8], k: Kind, s: &[u8]) -> usize
    requires fact_1 { length p.now ≤ 1024 }
    requires fact_2 { Joins p.now k s.now }
    ensures value { result ≡ length (start_bytes p.now k s.now) }
    ensures upper_bound { result ≤ 1026 }
{
    match k {
        Kind::Unbounded if p.is_empty() => 0,
        Kind::Unbounded => 2 + p.len(),
        Kind::Included | Kind::Excluded => 2 + p.len() + s.len(),
    }
}

// How many bytes an end takes that follows a prefix.
#[tactic(auto, using(crate::proofs::Joins::end_exits))]
fn end_size(p: &[u8], k: Kind, e: &[u8], n: usize) -> usize
    requires fact_1 { n ≡ kept_for k p.now }
    requires fact_2 { length p.now ≤ 1024 }
    requires fact_3 { Joins p.now k e.now }
    ensures value { result ≡ length (end_bytes p.now k e.now) }
    ensures upper_bound { result ≤ 1026 }
{
    match k {
        Kind::Unbounded if n == 0 => 0,
        Kind::Unbounded => 2 + n,
        Kind::Included | Kind::Excluded => 2 + p.len() + e.len(),
    }
}

// Writes a start that follows a prefix; answers the place past it.
#[tactic(auto, unfolding(crate::specs::Prefix::join_start, crate::specs::Writing::joins_within, format::specs::Range::write_bound))]
fn put_start(out: &mut [u8], at: usize, p: &[u8], k: Kind, s: &[u8]) -> usize
    requires fact_1 { length p.now ≤ 1024 }
    requires fact_2 { Joins p.now k s.now }
    requires fact_3 { at + length (start_bytes p.now k s.now) ≤ length out.old }
    ensures value { result ≡ at + length (start_bytes p.now k s.now) }
    ensures out_after { out.new ≡ splice out.old at (start_bytes p.now k s.now) }
{
    match k {
        Kind::Unbounded if p.is_empty() => at,
        Kind::Unbounded => format::put_key(out, at, p, &[]),
        Kind::Included | Kind::Excluded => format::put_key(out, at, p, s),
    }
}

// Writes the next prefix, whose last byte is one more than the last that is kept.
#[tactic(auto, using(crate::proofs::JoinPut::next_exits))]
fn put_next(out: &mut [u8], at: usize, p: &[u8], n: usize) -> usize
    requires fact_1 { length p.now ≤ 1024 }
    requires fact_2 { n ≡ kept_of p.now (length p.now) }
    requires fact_3 { (n ≡ 0 → ⊥) }
    requires fact_4 { at + length (write_bound (join_end p.now unbounded)) ≤ length out.old }
    ensures value { result ≡ at + length (write_bound (join_end p.now unbounded)) }
    ensures out_after { out.new ≡ splice out.old at (write_bound (join_end p.now unbounded)) }
{
    let last = p[n - 1] + 1;
    format::put_key(out, at, &p[..n - 1], &[last])
}

// Writes an end that follows a prefix; answers the place past it.
#[tactic(auto, unfolding(crate::specs::Prefix::join_end, crate::specs::Prefix::next_prefix, crate::specs::Prefix::raised, crate::specs::Writing::kept_for, crate::specs::Writing::joins_within, format::specs::Range::write_bound))]
fn put_end(out: &mut [u8], at: usize, p: &[u8], k: Kind, e: &[u8], n: usize) -> usize
    requires fact_1 { n ≡ kept_for k p.now }
    requires fact_2 { length p.now ≤ 1024 }
    requires fact_3 { Joins p.now k e.now }
    requires fact_4 { at + length (end_bytes p.now k e.now) ≤ length out.old }
    ensures value { result ≡ at + length (end_bytes p.now k e.now) }
    ensures out_after { out.new ≡ splice out.old at (end_bytes p.now k e.now) }
{
    match k {
        Kind::Unbounded if n == 0 => at,
        Kind::Unbounded => put_next(out, at, p, n),
        Kind::Included | Kind::Excluded => format::put_key(out, at, p, e),
    }
}

// Writes the range of a prefix and a subrange to the front of a buffer.
#[tactic(auto, using(crate::proofs::RangePut::range_puts))]
fn write_range(out: &mut [u8], p: &[u8], ks: Kind, s: &[u8], ke: Kind, e: &[u8], n: usize)
    requires fact_1 { n ≡ kept_for ke p.now }
    requires fact_2 { length p.now ≤ 1024 }
    requires fact_3 { Joins p.now ks s.now }
    requires fact_4 { Joins p.now ke e.now }
    requires fact_5 { length (range_bytes p.now ks s.now ke e.now) ≤ length out.old }
    ensures { out.new ≡ splice out.old 0 (range_bytes p.now ks s.now ke e.now) }
{
    let head = format::head_byte(start_kind(p, ks, s), end_kind(p, ke, e, n));
    format::put_byte(out, 0, head);
    let at = put_start(out, 1, p, ks, s);
    put_end(out, at, p, ke, e, n);
}

// The range of a prefix and a subrange, written to the front of a buffer that is long enough.
#[tactic(auto, using(crate::proofs::RangePut::range_puts, base::proofs::Outcome::written_exits))]
pub fn from_prefix_and_subrange(
    p: &[u8],
    ks: Kind,
    s: &[u8],
    ke: Kind,
    e: &[u8],
    out: &mut [u8],
) -> Written
    requires fact_1 { length p.now ≤ 1024 }
    requires fact_2 { Joins p.now ks s.now }
    requires fact_3 { Joins p.now ke e.now }
    ensures value { result ≡ reported (written_to (length out.old) (range_bytes p.now ks s.now ke e.now)) }
    ensures out_after { out.new ≡ lent out.old (written_to (length out.old) (range_bytes p.now ks s.now ke e.now)) }
{
    let n = kept_for(p, ke);
    let size = 1 + start_size(p, ks, s) + end_size(p, ke, e, n);
    if out.len() < size {
        return Written::Stop(16);
    }
    write_range(out, p, ks, s, ke, e, n);
    Written::Wrote(size)
}

// Whether a bound's key follows a prefix within 1,024 bytes.
#[tactic(auto, unfolding(crate::specs::Writing::joins_within))]
pub fn joins_within(p: &[u8], k: Kind, s: &[u8]) -> bool
    requires { length p.now ≤ 1024 }
    ensures { result ≡ joins_within p.now (bound_of k s.now) }
{
    !comparable_range::keyed(k) || s.len() <= 1024 - p.len()
}

// Whether a subrange that passes `non_empty` no longer does after the prefix.
#[tactic(auto, unfolding(crate::specs::Laws::leaves_none_bounds))]
pub fn leaves_none(p: &[u8], ks: Kind, s: &[u8], ke: Kind, e: &[u8]) -> bool
    ensures { result ≡ leaves_none p.now (range_of ks s.now ke e.now) }
{
    matches!((ks, ke), (Kind::Unbounded, Kind::Excluded)) && !p.is_empty() && e.is_empty()
}

// Whether a range is one point, which is then its start's key.
#[tactic(auto, unfolding(crate::specs::Prefix::point_of))]
pub fn as_point(ks: Kind, s: &[u8], ke: Kind, e: &[u8]) -> bool
    ensures { point_if result s.now ≡ as_point (range_of ks s.now ke e.now) }
{
    matches!((ks, ke), (Kind::Included, Kind::Included)) && key::cmp(s, e).is_eq()
}
