// How a call for C tells its answer: the number of the stop is returned, or 0; a number that it answers stands in a slot of the
// caller's, bytes stand at the front of a lent buffer. A stop leaves slots and buffers as they were. The crate `told_bytes` puts
// the bytes of an answer with places.
#![tactic(auto)]

ghost use Rattle.std.specs.Prelude.{◌≡◌};
ghost use Rattle.base.specs.Outcome.{test_of};
ghost use Rattle.partitioned_keyspace.specs.Calls.{count_of, found_of, covered_of};
ghost use Rattle.view_sizes.specs.SizeCalls.{fraction_of, size_of};
ghost use Rattle.bilqarush.specs.Answers.{order_of};
ghost use Rattle.told.specs.Told.{held, counted, SlotTold, OptionTold};
ghost use Rattle.told.specs.Lookups.{test_given, CoveredTold};
ghost use Rattle.told.specs.Sizes.{part_of};

use base::Written;
use bilqarush::{
    Compared, Counted, Covered, Estimated, Found, Shown, Test, Tested, VisibleFraction,
};

pub fn tell_order(c: Compared, order: &mut i8) -> u8
    ensures { SlotTold (order_of c) (held order) result }
{
    match c {
        Compared::Stop(n) => n,
        Compared::Order(o) => {
            *order = o;
            0
        }
    }
}

pub fn tell_test(t: Tested, is: &mut bool) -> u8
    ensures { SlotTold (test_of t) (held is) result }
{
    match t {
        Tested::Stop(n) => n,
        Tested::Is(b) => {
            *is = b;
            0
        }
    }
}

// How many bytes were written.
pub fn tell(w: Written, written: &mut usize) -> u8
    ensures { SlotTold (counted w) (held written) result }
{
    match w {
        Written::Stop(n) => n,
        Written::Wrote(n) => {
            *written = n;
            0
        }
    }
}

// The test that a flag stands for.
pub fn test_given(at_or_below: bool) -> Test
    ensures { result ≡ test_given at_or_below }
{
    if at_or_below {
        Test::AtOrBelow
    } else {
        Test::Below
    }
}

pub fn tell_count(c: Counted, count: &mut usize) -> u8
    ensures { SlotTold (count_of c) (held count) result }
{
    match c {
        Counted::Stop(n) => n,
        Counted::Is(n) => {
            *count = n;
            0
        }
    }
}

pub fn tell_found(f: Found, found: &mut bool, partition: &mut usize) -> u8
    ensures { OptionTold (found_of f) (held found) (held partition) result }
{
    match f {
        Found::Stop(n) => n,
        Found::Nothing => {
            *found = false;
            0
        }
        Found::At(p) => {
            *found = true;
            *partition = p;
            0
        }
    }
}

pub fn tell_covered(c: Covered, start: &mut usize, end: &mut usize) -> u8
    ensures { CoveredTold (covered_of c) (held start) (held end) result }
{
    match c {
        Covered::Stop(n) => n,
        Covered::Places(s, e) => {
            *start = s;
            *end = e;
            0
        }
    }
}

// Whether a fraction is a part, and then its number.
pub fn tell_fraction(s: Shown, part: &mut bool, fraction: &mut f64) -> u8
    ensures { OptionTold (part_of (fraction_of s)) (held part) (held fraction) result }
{
    match s {
        Shown::Stop(n) => n,
        Shown::Fraction(f) => match f {
            VisibleFraction::Whole => {
                *part = false;
                0
            }
            VisibleFraction::Part(x) => {
                *part = true;
                *fraction = x;
                0
            }
        },
    }
}

pub fn tell_size(e: Estimated, size: &mut u64) -> u8
    ensures { SlotTold (size_of e) (held size) result }
{
    match e {
        Estimated::Stop(n) => n,
        Estimated::Bytes(n) => {
            *size = n;
            0
        }
    }
}
