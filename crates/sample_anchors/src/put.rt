// Anchors that stand in tables, written into a lent buffer.
ghost use Rattle.std.specs.Prelude.{◌≡◌, ◌≤◌, ◌+◌, T, length, drop};
ghost use Rattle.base.specs.Outcome.{over, lent, reported, written_to};
ghost use Rattle.base.specs.Splice.{splice};
ghost use Rattle.format.specs.Got.{is_got};
ghost use Rattle.format.specs.Key.{read_key};
ghost use Rattle.records.specs.Form.{write_many};
ghost use Rattle.records.specs.Layouts.{anchor, anchors};
ghost use Rattle.key_rows.specs.Rows.{key_there, Rows};
ghost use Rattle.subcompaction.specs.Tables.{anchors_in};
ghost use Rattle.sample_anchors.specs.Fields.{fields_in};

use base::Written;
use key_rows::{key_part, put_key};

// How long the anchors of n rows are: a count, and for each row its key's field and eight bytes.
#[tactic(auto, using(crate::proofs::PutExits::len_exits))]
fn anchors_len(s: &[u8], keys: &[usize], n: usize) -> usize
    requires fact_1 { Rows s.now keys.now n }
    requires fact_2 { n ≤ 4096 }
    ensures { result ≡ 2 + fields_in s.now keys.now n }
{
    let mut len = 2;
    for row in 0..n {
        len += key_part(s, keys[row]).len() + 10;
    }
    len
}

// The anchor whose key stands at a place. Answers the place past what was put.
#[tactic(auto, using(crate::proofs::PutExits::put_anchor_exits))]
fn put_anchor(s: &[u8], at: usize, size: u64, out: &mut [u8], to: usize) -> usize
    requires fact_1 { T (is_got (read_key (drop at s.now))) }
    requires fact_2 { to + length (anchor.write (record { key = key_there s.now at; bytes = size })) ≤ length out.old }
    ensures value { result ≡ to + length (anchor.write (record { key = key_there s.now at; bytes = size })) }
    ensures out_after { out.new ≡ splice out.old to (anchor.write (record { key = key_there s.now at; bytes = size })) }
{
    let next = put_key(s, at, out, to);
    format::put_number(out, next, size, 8);
    next + 8
}

// The anchors of n rows, without their count.
#[tactic(auto, using(crate::proofs::PutExits::put_rows_exits))]
fn put_rows(s: &[u8], keys: &[usize], bytes: &[u64], n: usize, out: &mut [u8], first: usize)
    requires rows_1 { Rows s.now keys.now n }
    requires rows_2 { n ≤ length bytes.now }
    requires n_in_bounds { first + length (write_many anchor.write (anchors_in s.now keys.now bytes.now n)) ≤ length out.old }
    ensures { out.new ≡ splice out.old first (write_many anchor.write (anchors_in s.now keys.now bytes.now n)) }
{
    let mut to = first;
    for row in 0..n {
        to = put_anchor(s, keys[row], bytes[row], out, to);
    }
}

// The anchors of n rows, at the front of a buffer. The caller has measured: they fit.
#[tactic(auto, using(crate::proofs::PutExits::put_anchors_exits))]
fn put_anchors(s: &[u8], keys: &[usize], bytes: &[u64], n: usize, out: &mut [u8])
    requires rows_1 { Rows s.now keys.now n }
    requires rows_2 { n ≤ length bytes.now }
    requires n_in_bounds { length (anchors.write (anchors_in s.now keys.now bytes.now n)) ≤ length out.old }
    ensures { out.new ≡ over (anchors.write (anchors_in s.now keys.now bytes.now n)) out.old }
{
    format::put_number(out, 0, n as u64, 2);
    put_rows(s, keys, bytes, n, out, 2);
}

// The anchors of n rows, written into a buffer if it has room for them.
#[tactic(auto, using(crate::proofs::PutExits::written_rows_exits))]
pub fn anchors_written(s: &[u8], keys: &[usize], bytes: &[u64], n: usize, out: &mut [u8]) -> Written
    requires fact_1 { Rows s.now keys.now n }
    requires fact_2 { n ≤ length bytes.now }
    requires fact_3 { n ≤ 4096 }
    ensures value { result ≡ reported (written_to (length out.old) (anchors.write (anchors_in s.now keys.now bytes.now n))) }
    ensures out_after { out.new ≡ lent out.old (written_to (length out.old) (anchors.write (anchors_in s.now keys.now bytes.now n))) }
{
    let len = anchors_len(s, keys, n);
    if out.len() < len {
        return Written::Stop(16);
    }
    put_anchors(s, keys, bytes, n, out);
    Written::Wrote(len)
}
