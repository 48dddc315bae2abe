// Answers of a call for C that are more than a number (a point, a range, a key), put into a lent buffer. It is measured before
// the first byte is put.
#![tactic(auto)]

ghost use Rattle.std.specs.Prelude.{◌≡◌, ◌≤◌, ◌+◌, length};
ghost use Rattle.base.specs.Outcome.{lent, reported, written_to};
ghost use Rattle.base.specs.Splice.{splice};
ghost use Rattle.format.specs.Range.{kind_number};
ghost use Rattle.format.specs.Span.{joint_of, JoinedInside, start_key_of, end_key_of};
ghost use Rattle.told_bytes.specs.Layouts.{side_number, place, bound, supplied, nothing, point_to, joined_to, view_range_to, key_to};

use base::Written;
use bilqarush::{Joined, Point, ViewRange};
use comparable_range::{Kind, Side};
use format::span::Supplied;
use format::{BoundSpan, span};

fn kind_number(k: Kind) -> u8
    ensures { result ≡ kind_number k }
{
    match k {
        Kind::Unbounded => 0,
        Kind::Included => 1,
        Kind::Excluded => 2,
    }
}

fn side_number(s: Side) -> u8
    ensures { result ≡ side_number s }
{
    match s {
        Side::First => 1,
        Side::Second => 2,
    }
}

#[tactic(auto, using(crate::proofs::PutExits::place_put))]
fn put_place(out: &mut [u8], to: usize, at: usize, len: usize)
    requires { to + 16 ≤ length out.old }
    ensures { out.new ≡ splice out.old to (place at len) }
{
    format::put_number(out, to, at as u64, 8);
    format::put_number(out, to + 8, len as u64, 8);
}

#[tactic(auto, using(crate::proofs::PutExits::bound_put))]
fn put_bound(out: &mut [u8], to: usize, b: BoundSpan)
    requires { to + 17 ≤ length out.old }
    ensures { out.new ≡ splice out.old to (bound b) }
{
    format::put_byte(out, to, kind_number(b.kind));
    put_place(out, to + 1, b.at, b.len);
}

#[tactic(auto, using(crate::proofs::PutExits::supplied_put))]
fn put_supplied(out: &mut [u8], to: usize, x: Supplied)
    requires { to + 18 ≤ length out.old }
    ensures { out.new ≡ splice out.old to (supplied x) }
{
    let b = x.bound;
    format::put_byte(out, to, kind_number(b.kind));
    format::put_byte(out, to + 1, side_number(x.side));
    put_place(out, to + 2, b.at, b.len);
}

// No point, no range.
fn put_nothing(out: &mut [u8]) -> Written
    ensures value { result ≡ reported (written_to (length out.old) nothing) }
    ensures out_after { out.new ≡ lent out.old (written_to (length out.old) nothing) }
{
    if out.is_empty() {
        return Written::Stop(16);
    }
    format::put_byte(out, 0, 0);
    Written::Wrote(1)
}

#[tactic(auto, using(crate::proofs::PutExits::point_exits))]
pub fn put_point(point: Point, out: &mut [u8]) -> Written
    ensures value { result ≡ reported (point_to (length out.old) point) }
    ensures out_after { out.new ≡ lent out.old (point_to (length out.old) point) }
{
    match point {
        Point::Stop(n) => Written::Stop(n),
        Point::Nothing => put_nothing(out),
        Point::At(at, len) => {
            if out.len() < 17 {
                return Written::Stop(16);
            }
            format::put_byte(out, 0, 1);
            put_place(out, 1, at, len);
            Written::Wrote(17)
        }
    }
}

#[tactic(auto, using(crate::proofs::PutExits::joined_exits))]
pub fn put_joined(joined: Joined, out: &mut [u8]) -> Written
    ensures value { result ≡ reported (joined_to (length out.old) joined) }
    ensures out_after { out.new ≡ lent out.old (joined_to (length out.old) joined) }
{
    match joined {
        Joined::Stop(n) => Written::Stop(n),
        Joined::Nothing => put_nothing(out),
        Joined::Range(start, end) => {
            if out.len() < 37 {
                return Written::Stop(16);
            }
            format::put_byte(out, 0, 1);
            put_supplied(out, 1, start);
            put_supplied(out, 19, end);
            Written::Wrote(37)
        }
    }
}

#[tactic(auto, using(crate::proofs::PutExits::view_exits))]
pub fn put_view_range(range: ViewRange, out: &mut [u8]) -> Written
    ensures value { result ≡ reported (view_range_to (length out.old) range) }
    ensures out_after { out.new ≡ lent out.old (view_range_to (length out.old) range) }
{
    match range {
        ViewRange::Stop(n) => Written::Stop(n),
        ViewRange::At { start, end } => {
            if out.len() < 34 {
                return Written::Stop(16);
            }
            put_bound(out, 0, start);
            put_bound(out, 17, end);
            Written::Wrote(34)
        }
    }
}

// The bytes of a key.
fn put_key(key: &[u8], out: &mut [u8]) -> Written
    ensures value { result ≡ reported (written_to (length out.old) key.now) }
    ensures out_after { out.new ≡ lent out.old (written_to (length out.old) key.now) }
{
    if out.len() < key.len() {
        return Written::Stop(16);
    }
    format::put(out, 0, key);
    Written::Wrote(key.len())
}

// The key of an intersection's start: no byte where it has none.
pub fn put_start_key<'a>(a: &'a [u8], b: &'a [u8], joined: Joined, out: &mut [u8]) -> Written
    requires { JoinedInside a.now b.now joined }
    ensures value { result ≡ reported (key_to (length out.old) (start_key_of (joint_of a.now b.now joined))) }
    ensures out_after { out.new ≡ lent out.old (key_to (length out.old) (start_key_of (joint_of a.now b.now joined))) }
{
    match joined {
        Joined::Stop(n) => Written::Stop(n),
        Joined::Nothing => Written::Wrote(0),
        Joined::Range(start, _) => put_key(span::supplied_key(a, b, start), out),
    }
}

// The key of its end.
pub fn put_end_key<'a>(a: &'a [u8], b: &'a [u8], joined: Joined, out: &mut [u8]) -> Written
    requires { JoinedInside a.now b.now joined }
    ensures value { result ≡ reported (key_to (length out.old) (end_key_of (joint_of a.now b.now joined))) }
    ensures out_after { out.new ≡ lent out.old (key_to (length out.old) (end_key_of (joint_of a.now b.now joined))) }
{
    match joined {
        Joined::Stop(n) => Written::Stop(n),
        Joined::Nothing => Written::Wrote(0),
        Joined::Range(_, end) => put_key(span::supplied_key(a, b, end), out),
    }
}
