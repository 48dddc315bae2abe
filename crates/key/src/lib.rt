// Byte keys and their order, as `Bytes: Ord` has it.
#![tactic(auto)]

ghost use Rattle.std.specs.Prelude.{◌≡◌, ◌+◌, ◌<◌, ◌≤◌, min, length, take, drop};
ghost use Rattle.key.specs.Order.{cmp_key, cmp_number, sign};
ghost use Rattle.key.specs.Word.{digits, WordAt, ReversedAt, Agree, Further};

use std::cmp::Ordering;

// The eight bytes from i as one number, most significant first.
pub fn word(a: &[u8], i: usize) -> u64
    requires { i + 8 ≤ length a.now }
    ensures { WordAt a.now i result }
{
    u64::from_be_bytes([
        a[i],
        a[i + 1],
        a[i + 2],
        a[i + 3],
        a[i + 4],
        a[i + 5],
        a[i + 6],
        a[i + 7],
    ])
}

// The eight bytes from i as one number, least significant first: one load, and enough to see whether they differ.
pub fn reversed(a: &[u8], i: usize) -> u64
    requires { i + 8 ≤ length a.now }
    ensures { ReversedAt a.now i result }
{
    u64::from_le_bytes([
        a[i],
        a[i + 1],
        a[i + 2],
        a[i + 3],
        a[i + 4],
        a[i + 5],
        a[i + 6],
        a[i + 7],
    ])
}

#[tactic(auto, using(crate::proofs::Digits::number_exits))]
fn cmp_number(x: u64, y: u64) -> Ordering
    ensures { result ≡ cmp_number x y }
{
    if x < y {
        Ordering::Less
    } else if y < x {
        Ordering::Greater
    } else {
        Ordering::Equal
    }
}

// The order of two keys, a byte at a time: for a key with fewer than eight.
#[tactic(auto, using(crate::proofs::Passed::kept))]
fn cmp_bytes(a: &[u8], b: &[u8]) -> Ordering
    ensures { result ≡ cmp_key a.now b.now }
{
    for i in 0..shorter(a, b) {
        if a[i] != b[i] {
            return cmp_number(u64::from(a[i]), u64::from(b[i]));
        }
    }
    cmp_number(a.len() as u64, b.len() as u64) // one is the other's prefix
}

// The length of the shorter key.
pub fn shorter(a: &[u8], b: &[u8]) -> usize
    ensures { result ≡ min (length a.now) (length b.now) }
{
    a.len().min(b.len())
}

// Whether the 32 bytes from i are the same in both keys, which are equal up to i. All of them are looked at, so that the
// compiler takes sixteen at a time.
#[inline(always)]
#[tactic(auto, using(crate::proofs::Words::block))]
fn same(a: &[u8], b: &[u8], i: usize) -> bool
    requires fact_1 { i + 32 ≤ length a.now }
    requires fact_2 { i + 32 ≤ length b.now }
    requires fact_3 { Agree a.now b.now i }
    ensures { Further result a.now b.now (i + 32) }
{
    let mut equal = true;
    for j in 0..32 {
        if a[i + j] != b[i + j] {
            equal = false;
        }
    }
    equal
}

// A place up to which the first n bytes of both keys are the same, found 32 bytes at a time: a long way, quickly.
// Inlined always: since `key_rows` calls it too, the compiler would else make a call of it, for which every comparison would pay.
#[inline(always)]
#[tactic(auto, using(crate::proofs::Words::long))]
pub fn agreed(a: &[u8], b: &[u8], n: usize) -> usize
    requires { n ≡ min (length a.now) (length b.now) }
    ensures { Agree a.now b.now result }
{
    if n < 32 {
        return 0; // a constant: the next loads need not wait for both lengths
    }
    for k in 0..n / 32 {
        if !same(a, b, k * 32) {
            return k * 32;
        }
    }
    n / 32 * 32
}

// The order of two keys: the first unequal byte decides, and a proper prefix comes first.
// Eight bytes at a time, since the order of equally many bytes is that of their numbers. The last eight of the shorter
// key may overlap the ones before, which are equal, so that no bytes are left over.
// Most keys differ in their first eight bytes, so these are looked at first.
#[tactic(auto, using(crate::proofs::Words::kept))]
pub fn cmp(a: &[u8], b: &[u8]) -> Ordering
    ensures { result ≡ cmp_key a.now b.now }
{
    let n = shorter(a, b);
    if n < 8 {
        return cmp_bytes(a, b);
    }
    let first_a = word(a, 0);
    let first_b = word(b, 0);
    if first_a != first_b {
        return cmp_number(first_a, first_b);
    }
    for i in (agreed(a, b, n)..n - 8).step_by(8) {
        let x = word(a, i);
        let y = word(b, i);
        if x != y {
            return cmp_number(x, y);
        }
    }
    let x = word(a, n - 8);
    let y = word(b, n - 8);
    if x == y {
        cmp_number(a.len() as u64, b.len() as u64)
    } else {
        cmp_number(x, y)
    }
}

// An order as the number that a call answers: -1, 0 or 1.
pub fn number(o: Ordering) -> i8
    ensures { result ≡ sign o }
{
    match o {
        Ordering::Less => -1,
        Ordering::Equal => 0,
        Ordering::Greater => 1,
    }
}
