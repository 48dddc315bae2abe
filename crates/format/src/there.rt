// Numbers, keys and bounds that are known to be there: what was read once is read again without a test.
ghost use Rattle.std.specs.Prelude.{◌≡◌, ◌≤◌, ◌+◌, ◌/◌, ◌%◌, length, drop, T};
ghost use Rattle.format.specs.Got.{got, is_got};
ghost use Rattle.format.specs.Number.{read_number};
ghost use Rattle.format.specs.Key.{read_key};
ghost use Rattle.format.specs.Range.{kind_of, read_bound};
ghost use Rattle.format.specs.There.{KeyThere, BoundThere};

use crate::{BoundSpan, big_endian};
use comparable_range::Kind;

// The number of n bytes.
#[tactic(auto, using(crate::proofs::Digits::number_exits))]
pub fn number_there(s: &[u8], at: usize, n: usize) -> u64
    requires fact_1 { n ≤ 8 }
    requires fact_2 { at + n ≤ length s.now }
    ensures { read_number n (drop at s.now) ≡ got result (drop (at + n) s.now) }
{
    // Eight bytes are one load.
    if n == 8 {
        key::word(s, at)
    } else {
        big_endian(&s[at..at + n])
    }
}

// Where a key's bytes stand. What comes after the key comes right after them.
#[derive(Clone, Copy)]
pub struct KeySpan {
    pub at: usize,
    pub len: usize,
}

#[tactic(auto, using(crate::proofs::ThereExits::key_there_exits))]
pub fn key_there(s: &[u8], at: usize) -> KeySpan
    requires { T (is_got (read_key (drop at s.now))) }
    ensures { KeyThere s.now (read_key (drop at s.now)) result }
{
    let len = number_there(s, at, 2) as usize;
    KeySpan { at: at + 2, len }
}

// The kind of a range's start, by the range's head byte.
pub fn start_kind(head: u8) -> Kind
    ensures { result ≡ kind_of (head / 64) }
{
    kind_of(head / 64)
}

pub fn end_kind(head: u8) -> Kind
    ensures { result ≡ kind_of (head / 16 % 4) }
{
    kind_of(head / 16 % 4)
}

fn kind_of(n: u8) -> Kind
    ensures { result ≡ kind_of n }
{
    match n {
        0 => Kind::Unbounded,
        1 => Kind::Included,
        _ => Kind::Excluded,
    }
}

// The bound of a kind. What comes after it comes right after its key, or where it stands if it has none.
#[tactic(auto, unfolding(crate::specs::Range::read_bound))]
pub fn bound_there(kind: Kind, s: &[u8], at: usize) -> BoundSpan
    requires fact_1 { at ≤ length s.now }
    requires fact_2 { T (is_got (read_bound kind (drop at s.now))) }
    ensures { BoundThere s.now (read_bound kind (drop at s.now)) result }
{
    if comparable_range::keyed(kind) {
        let KeySpan { at, len } = key_there(s, at);
        BoundSpan { kind, at, len }
    } else {
        BoundSpan { kind, at, len: 0 }
    }
}
