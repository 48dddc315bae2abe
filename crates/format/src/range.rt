// Ranges: a head byte, and the keys that it calls for.
ghost use Rattle.std.specs.Prelude.{◌≡◌, ◌≤◌, ◌<◌, ◌+◌, length, take, drop};
ghost use Rattle.format.specs.Range.{head_of, head_byte, kind_number, read_bound, read_range, BoundFound, RangeFound, RangeWhole, BoundInside};

use crate::{KeyRead, key_at};
use comparable_range::Kind;

// What the head byte says: the kinds of start and end.
#[derive(Clone, Copy)]
pub enum Head {
    Kinds(Kind, Kind),
    Stop(u8),
}

// The start's kind in the two highest bits, then the end's, then four bits of padding. Document 01 binds this match: the nine
// valid pairs of kinds, and ranges for padding and kind 3.
fn head_of(b: u8) -> Head
    ensures { result ≡ head_of b }
{
    match b {
        0 => Head::Kinds(Kind::Unbounded, Kind::Unbounded),
        16 => Head::Kinds(Kind::Unbounded, Kind::Included),
        32 => Head::Kinds(Kind::Unbounded, Kind::Excluded),
        64 => Head::Kinds(Kind::Included, Kind::Unbounded),
        80 => Head::Kinds(Kind::Included, Kind::Included),
        96 => Head::Kinds(Kind::Included, Kind::Excluded),
        128 => Head::Kinds(Kind::Excluded, Kind::Unbounded),
        144 => Head::Kinds(Kind::Excluded, Kind::Included),
        160 => Head::Kinds(Kind::Excluded, Kind::Excluded),
        // Padding.
        1..=15
        | 17..=31
        | 33..=47
        | 65..=79
        | 81..=95
        | 97..=111
        | 129..=143
        | 145..=159
        | 161..=175 => Head::Stop(2),
        // Kind 3.
        48..=63 | 112..=127 | 176..=255 => Head::Stop(2),
    }
}

fn kind_number(k: Kind) -> u8
    ensures { (result ≡ kind_number k) × (result < 3) }
{
    match k {
        Kind::Unbounded => 0,
        Kind::Included => 1,
        Kind::Excluded => 2,
    }
}

// The head byte of two kinds.
pub fn head_byte(ks: Kind, ke: Kind) -> u8
    ensures { result ≡ head_byte ks ke }
{
    kind_number(ks) * 64 + kind_number(ke) * 16
}

// A bound: its kind, and where its key stands. An unbounded one has no key, and its span is empty.
#[derive(Clone, Copy)]
pub struct BoundSpan {
    pub kind: Kind,
    pub at: usize,
    pub len: usize,
}

#[derive(Clone, Copy)]
pub enum BoundRead {
    At(BoundSpan, usize),
    Stop(u8),
}

// The bound of a kind at a place.
#[tactic(auto, unfolding(crate::specs::Range::read_bound))]
fn bound_at(kind: Kind, s: &[u8], at: usize) -> BoundRead
    requires { at ≤ length s.now }
    ensures { BoundFound s.now (read_bound kind (drop at s.now)) result }
{
    if !comparable_range::keyed(kind) {
        return BoundRead::At(BoundSpan { kind, at, len: 0 }, at);
    }
    match key_at(s, at) {
        KeyRead::Stop(n) => BoundRead::Stop(n),
        KeyRead::At { start, len, next } => BoundRead::At(
            BoundSpan {
                kind,
                at: start,
                len,
            },
            next,
        ),
    }
}

// What reading a range finds: its bounds, and the place past it.
#[derive(Clone, Copy)]
pub enum RangeRead {
    At {
        start: BoundSpan,
        end: BoundSpan,
        next: usize,
    },
    Stop(u8),
}

// The range at a place.
#[tactic(auto, using(crate::proofs::Ranges::range_exits))]
pub fn range_at(s: &[u8], at: usize) -> RangeRead
    ensures { RangeFound s.now (read_range (drop at s.now)) result }
{
    if s.len() <= at {
        return RangeRead::Stop(1);
    }
    match head_of(s[at]) {
        Head::Stop(n) => RangeRead::Stop(n),
        Head::Kinds(ks, ke) => match bound_at(ks, s, at + 1) {
            BoundRead::Stop(n) => RangeRead::Stop(n),
            BoundRead::At(start, p) => match bound_at(ke, s, p) {
                BoundRead::Stop(n) => RangeRead::Stop(n),
                BoundRead::At(end, next) => RangeRead::At { start, end, next },
            },
        },
    }
}

// The range that is the whole of a buffer.
#[tactic(auto, using(crate::proofs::Ranges::bytes_left), unfolding(crate::specs::Whole::whole))]
pub fn range_whole(s: &[u8]) -> RangeRead
    ensures { RangeWhole s.now result }
{
    if 65536 < s.len() {
        return RangeRead::Stop(3);
    }
    match range_at(s, 0) {
        RangeRead::Stop(n) => RangeRead::Stop(n),
        RangeRead::At { start, end, next } => {
            if next < s.len() {
                return RangeRead::Stop(1);
            }
            RangeRead::At { start, end, next }
        }
    }
}

// The key of a bound, as a part of the slice that it stands in.
pub fn key_of(s: &[u8], b: BoundSpan) -> &[u8]
    requires { BoundInside s.now b }
    ensures { result.now ≡ take b.len (drop b.at s.now) }
{
    &s[b.at..b.at + b.len]
}
