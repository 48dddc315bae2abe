// A raw size times a fraction, rounded.
ghost use Rattle.std.specs.Prelude.{◌≡◌, ◌^◌, ◌≤◌, T};
ghost use Rattle.std.specs.Float.Ieee.{le, to_unsigned};
ghost use Rattle.visible_size.specs.Steps.{zero64, most_size, round_half_away, fraction_number};
ghost use Rattle.visible_size.specs.Numbers.{InPart, SizeFound};

use crate::VisibleFraction;

// The nearest whole number, a half away from zero, of a number from 0 to 2^53. Twice it is exact, and so is the whole part.
// Not `f64::round`: it is a rule of the project that f64's `round` is its own.
fn round_away(x: f64) -> u64
    requires fact_1 { T (le zero64 x) }
    requires fact_2 { T (le x most_size) }
    ensures { result ≡ to_unsigned 64 (round_half_away x) }
{
    let twice = std::num::truncating_f64_to_u64(x + x);
    twice / 2 + twice % 2
}

fn fraction_number(f: VisibleFraction) -> f64
    ensures { result ≡ fraction_number f }
{
    match f {
        VisibleFraction::Whole => 1.0,
        VisibleFraction::Part(x) => x,
    }
}

// At least 1.
pub fn visible_size(raw: u64, f: VisibleFraction) -> u64
    requires fact_1 { raw ≤ 2 ^ 53 }
    requires fact_2 { InPart f }
    ensures { SizeFound raw f result }
{
    round_away(raw as f64 * fraction_number(f)).max(1)
}
