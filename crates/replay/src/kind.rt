// The kinds of bounds and the sides that supply them, as document 01 numbers them, and not as the library writes them.
ghost use Rattle.std.specs.Prelude.{◌≡◌, ◌≤◌};
ghost use Rattle.format.specs.Range.{kind_number};

use comparable_range::{Kind, Side};

pub fn number(kind: Kind) -> u8
    ensures { (result ≡ kind_number kind) × (result ≤ 2) }
{
    match kind {
        Kind::Unbounded => 0,
        Kind::Included => 1,
        Kind::Excluded => 2,
    }
}

pub fn side_number(side: Side) -> u8 {
    match side {
        Side::First => 1,
        Side::Second => 2,
    }
}
