// The layouts of document 01, "Images": keys and ranges. What is read is read in place: an answer says where it stands.
#![tactic(auto)]

mod given;
mod range;
pub mod span;
mod there;
mod write;

ghost use Rattle.std.specs.Prelude.{◌≡◌, ◌≤◌, ◌<◌, length, drop};
ghost use Rattle.key.specs.Word.{digits};
ghost use Rattle.format.specs.Number.{read_number, number_of};
ghost use Rattle.format.specs.Key.{read_key, KeyFound};

pub use given::{Given, bound_given};
pub use range::{BoundSpan, RangeRead, head_byte, key_of, range_at, range_whole};
pub use there::{KeySpan, bound_there, end_kind, key_there, number_there, start_kind};
pub use write::{put, put_byte, put_key, put_number};

// What reading a number finds.
#[derive(Clone, Copy)]
pub enum Number {
    Value(u64),
    Short,
}

// The number of at most eight bytes, most significant first.
#[tactic(auto, using(crate::proofs::Digits::kept))]
fn big_endian(t: &[u8]) -> u64
    requires { length t.now ≤ 8 }
    ensures { result ≡ digits 0 t.now }
{
    let mut v = 0;
    for &b in t {
        v = v * 256 + u64::from(b);
    }
    v
}

// The number of n bytes at a place.
#[tactic(auto, using(crate::proofs::Digits::number_exits))]
pub fn number_at(s: &[u8], at: usize, n: usize) -> Number
    requires fact_1 { 0 < n }
    requires fact_2 { n ≤ 8 }
    ensures { number_of n s.now at result ≡ read_number n (drop at s.now) }
{
    if s.len() < at || s.len() - at < n {
        Number::Short
    } else {
        Number::Value(big_endian(&s[at..at + n]))
    }
}

// What reading a key finds: its bytes start at start and are len long, and next is past them.
#[derive(Clone, Copy)]
pub enum KeyRead {
    At {
        start: usize,
        len: usize,
        next: usize,
    },
    Stop(u8),
}

// The key at a place.
#[tactic(auto, using(crate::proofs::Keys::key_exits))]
pub fn key_at(s: &[u8], at: usize) -> KeyRead
    ensures { KeyFound s.now (read_key (drop at s.now)) result }
{
    let Number::Value(n) = number_at(s, at, 2) else {
        return KeyRead::Stop(1);
    };
    if 1024 < n {
        return KeyRead::Stop(3);
    }
    let len = n as usize;
    let start = at + 2;
    if s.len() - start < len {
        return KeyRead::Stop(1);
    }
    KeyRead::At {
        start,
        len,
        next: start + len,
    }
}
