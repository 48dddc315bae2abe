// The bytes of a range, written into a lent buffer at a place. Each function that puts answers the place past what it put.
#![tactic(auto)]

ghost use Rattle.std.specs.Prelude.{◌≡◌, ◌≤◌, ◌+◌, length};
ghost use Rattle.comparable_range.specs.Range.{bound_of, range_of};
ghost use Rattle.format.specs.Key.{write_key};
ghost use Rattle.format.specs.Range.{write_bound, write_range};
ghost use Rattle.range_write.specs.Put.{Put};

use comparable_range::Kind;

// A key with its length.
#[tactic(auto, using(crate::proofs::RangeExits::key_exits))]
fn put_key(key: &[u8], out: &mut [u8], to: usize) -> usize
    requires { to + length (write_key key.now) ≤ length out.old }
    ensures { Put out.old to (write_key key.now) out.new result }
{
    format::put_number(out, to, key.len() as u64, 2);
    format::put(out, to + 2, key);
    to + 2 + key.len()
}

#[tactic(auto, using(crate::proofs::RangeExits::bound_exits))]
fn put_bound(k: Kind, key: &[u8], out: &mut [u8], to: usize) -> usize
    requires { to + length (write_bound (bound_of k key.now)) ≤ length out.old }
    ensures { Put out.old to (write_bound (bound_of k key.now)) out.new result }
{
    match k {
        Kind::Unbounded => to,
        Kind::Included | Kind::Excluded => put_key(key, out, to),
    }
}

#[tactic(auto, using(crate::proofs::RangeExits::range_exits))]
pub fn put_range(ks: Kind, s: &[u8], ke: Kind, e: &[u8], out: &mut [u8], to: usize) -> usize
    requires { to + length (write_range (range_of ks s.now ke e.now)) ≤ length out.old }
    ensures { Put out.old to (write_range (range_of ks s.now ke e.now)) out.new result }
{
    let head = format::head_byte(ks, ke);
    format::put_byte(out, to, head);
    let past = put_bound(ks, s, out, to + 1);
    put_bound(ke, e, out, past)
}

// How many bytes a bound takes.
#[tactic(auto, using(format::proofs::Layouts::key_length, std::proofs::lemmas::Grind::common_steps), unfolding(format::specs::Range::write_bound))]
fn bound_size(k: Kind, key: &[u8]) -> usize
    requires { length key.now ≤ 65536 }
    ensures { (result ≡ length (write_bound (bound_of k key.now))) × (result ≤ 65538) }
{
    match k {
        Kind::Unbounded => 0,
        Kind::Included | Kind::Excluded => 2 + key.len(),
    }
}

// How many bytes `put_range` puts.
#[tactic(auto, using(crate::proofs::RangeExits::both_sizes))]
pub fn range_size(ks: Kind, s: &[u8], ke: Kind, e: &[u8]) -> usize
    requires fact_1 { length s.now ≤ 65536 }
    requires fact_2 { length e.now ≤ 65536 }
    ensures { (result ≡ length (write_range (range_of ks s.now ke e.now))) × (result ≤ 131077) }
{
    1 + bound_size(ks, s) + bound_size(ke, e)
}
