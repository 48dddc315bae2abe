// The numbers that keys stand for, and the lengths of ranges.
ghost use Rattle.std.specs.Prelude.{◌≡◌, ◌<◌, drop};
ghost use Rattle.format.specs.Range.{BoundInside, bound_in, range_in};
ghost use Rattle.visible_size.specs.Steps.{common_prefix_len};
ghost use Rattle.visible_size.specs.Steps as steps;
ghost use Rattle.visible_size.specs.Numbers.{InUnit, KeyNumber, BoundNumber, RangeLen};

use comparable_range::Kind;
use format::span::RangeSpan;
use format::{BoundSpan, key_of};

// 256^-1 to 256^-8.
const SCALES: [f64; 8] = [
    0.00390625,
    0.0000152587890625,
    0.000000059604644775390625,
    0.00000000023283064365386962890625,
    0.0000000000009094947017729282379150390625,
    0.000000000000003552713678800500929355621337890625,
    0.00000000000000001387778780781445675529539585113525390625,
    0.0000000000000000000542101086242752217003726400434970855712890625,
];

// The number of a part of a key: at most eight bytes are read.
pub fn key_fraction(part: &[u8]) -> f64
    ensures { KeyNumber part.now result }
{
    let mut number = 0.0;
    for (&byte, &scale) in part.iter().zip(&SCALES) {
        number += f64::from(byte) * scale;
    }
    number
}

// The number of a key after so many bytes.
fn number_after(key: &[u8], skip: usize) -> f64
    ensures { KeyNumber (drop skip key.now) result }
{
    key_fraction(&key[skip.min(key.len())..])
}

// How many bytes two keys begin with alike. `alike` of key_rows is faster, but promises only that so many bytes agree, not that
// no more do.
pub fn common_prefix_len(a: &[u8], b: &[u8]) -> usize
    ensures { result ≡ common_prefix_len a.now b.now }
{
    a.iter().zip(b).take_while(|(x, y)| x == y).count()
}

// The number of a bound; without a key, that of its side.
fn bound_number(s: &[u8], b: BoundSpan, skip: usize, side: f64) -> f64
    requires fact_1 { BoundInside s.now b }
    requires fact_2 { InUnit side }
    ensures { BoundNumber skip side (bound_in s.now b) result }
{
    match b.kind {
        Kind::Unbounded => side,
        Kind::Included | Kind::Excluded => number_after(key_of(s, b), skip),
    }
}

// The length of a range: an open start is 0 and an open end 1.
pub fn range_len(s: &[u8], r: RangeSpan, skip: usize) -> f64
    requires fact_1 { BoundInside s.now r.start }
    requires fact_2 { BoundInside s.now r.end }
    ensures { RangeLen skip (range_in s.now r.start r.end) result }
{
    bound_number(s, r.end, skip, 1.0) - bound_number(s, r.start, skip, 0.0)
}
