// A bound that is given as an argument of its own.
ghost use Rattle.std.specs.Prelude.{◌≡◌};
ghost use Rattle.format.specs.Given.{bound_given, given_of};

use comparable_range::Kind;

// What a bound is that is given by its kind's number and its key.
#[derive(Clone, Copy)]
pub enum Given {
    Bound(Kind),
    Stop(u8),
}

#[tactic(auto, unfolding(crate::specs::Given::bound_given, crate::specs::Whole::key_given))]
pub fn bound_given(kind: u8, key: &[u8]) -> Given
    ensures { given_of key.now result ≡ bound_given kind key.now }
{
    match kind {
        0 if 65536 < key.len() => Given::Stop(3),
        0 if 0 < key.len() => Given::Stop(1),
        0 => Given::Bound(Kind::Unbounded),
        1 | 2 if 1024 < key.len() => Given::Stop(3),
        1 => Given::Bound(Kind::Included),
        2 => Given::Bound(Kind::Excluded),
        3..=255 => Given::Stop(2),
    }
}
