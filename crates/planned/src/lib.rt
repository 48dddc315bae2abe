// Ranges from anchors: the sorted keys are walked for boundaries, and the plan is measured and written.
#![tactic(auto)]

ghost use Rattle.std.specs.Prelude.{◌≡◌, ◌&&◌, ◌≤◌, ◌<◌, ◌+◌, ◌^◌, T, ltb, leb, length, take, drop};
ghost use Rattle.base.specs.Outcome.{reported, lent, written_to};
ghost use Rattle.base.specs.Splice.{splice};
ghost use Rattle.key.specs.Order.{key_below};
ghost use Rattle.format.specs.Got.{is_got};
ghost use Rattle.format.specs.Key.{read_key};
ghost use Rattle.manifest.specs.Checks.{total};
ghost use Rattle.key_rows.specs.Rows.{key_there, Rows, in_order};
ghost use Rattle.subcompaction.specs.Boundaries.{prepared};
ghost use Rattle.subcompaction.specs.Boundaries as choice;
ghost use Rattle.planned.specs.Marks.{goal_of, marked_keys, Marked, end_kind, joint, joints, plan_bytes, plan_to};
ghost use Rattle.subcompaction.specs.Tables.{anchors_in};

use base::Written;
use comparable_range::Kind;
use key_rows::{key_part, put_key, same_key};
use sorted_keys::sort;

// How many ranges are asked for, the least bytes of one, and the bytes of all anchors.
#[derive(Clone, Copy)]
pub struct Asked {
    pub parts: usize,
    pub least: u64,
    pub total: u64,
}

// The bytes that a range is to have.
#[tactic(auto, unfolding(subcompaction::specs::Boundaries::target))]
fn target_bytes(parts: usize, least: u64, total: u64) -> u64
    requires { 0 < parts }
    ensures { result ≡ choice.target parts least total }
{
    (total / parts as u64).max(least)
}

// The same, or 0 where one range results.
#[tactic(auto, using(crate::proofs::Choosing::goal_exits))]
fn goal_bytes(ask: Asked) -> u64
    ensures { result ≡ goal_of ask.parts ask.least ask.total }
{
    if ask.parts <= 1 {
        return 0;
    }
    let goal = target_bytes(ask.parts, ask.least, ask.total);
    if ask.total <= goal { 0 } else { goal }
}

// Whether the key at one place is below the key at another.
fn below(s: &[u8], a: usize, b: usize) -> bool
    requires fact_1 { T (is_got (read_key (drop a s.now))) }
    requires fact_2 { T (is_got (read_key (drop b s.now))) }
    ensures { result ≡ key_below (key_there s.now a) (key_there s.now b) }
{
    key::cmp(key_part(s, a), key_part(s, b)).is_lt()
}

// Whether a range begins at a key. Keys are compared last, and only where all else says so.
fn begins(s: &[u8], left: usize, threshold: u64, before: u64, last: usize, at: usize) -> bool
    requires fact_1 { T (is_got (read_key (drop last s.now))) }
    requires fact_2 { T (is_got (read_key (drop at s.now))) }
    ensures { result ≡ (ltb 0 left && leb threshold before && key_below (key_there s.now last) (key_there s.now at)) }
{
    0 < left && threshold <= before && below(s, last, at)
}

// Marks the keys at which ranges begin, and answers how many they are.
#[tactic(auto, using(crate::proofs::Walking::walk_exits))]
fn boundaries(
    s: &[u8],
    keys: &[usize],
    bytes: &[u64],
    order: &[usize],
    n: usize,
    parts: usize,
    goal: u64,
    marks: &mut [usize],
) -> usize
    requires rows_1 { Rows s.now keys.now n }
    requires rows_2 { n ≤ length bytes.now }
    requires rows_3 { n ≤ length order.now }
    requires rows_4 { take n order.now ≡ in_order s.now keys.now n }
    requires parts_nonzero_1 { 0 < parts }
    requires parts_nonzero_2 { parts ≤ 64 }
    requires parts_nonzero_3 { length marks.old ≡ 64 }
    requires parts_nonzero_4 { goal < 2 ^ 63 }
    requires parts_nonzero_5 { total (anchors_in s.now keys.now bytes.now n) < 2 ^ 63 }
    ensures { Marked s.now marks.new result (choice.boundaries parts goal (prepared (anchors_in s.now keys.now bytes.now n))) }
{
    if n == 0 {
        return 0;
    }
    let mut last = keys[order[0]]; // the smallest key
    let largest = keys[order[n - 1]];
    if same_key(s, last, largest) {
        return 0; // all are on one key
    }
    let mut count = 0;
    let mut threshold = goal;
    let mut reached: u64 = 0;
    for i in 0..n {
        let row = order[i];
        let at = keys[row];
        let before = reached;
        reached += bytes[row];
        if begins(s, parts - 1 - count, threshold, before, last, at) {
            marks[count] = at;
            count += 1;
            threshold += goal;
            last = at;
        }
    }
    count
}

// The boundaries that at most N anchors give: none where one range results.
#[tactic(auto, using(crate::proofs::Choosing::choose_exits))]
fn choose<const N: usize>(
    s: &[u8],
    keys: &[usize],
    bytes: &[u64],
    n: usize,
    order: &mut [usize],
    ask: Asked,
    marks: &mut [usize],
) -> usize
    requires rows_1 { Rows s.now keys.now n }
    requires rows_2 { n ≤ length bytes.now }
    requires rows_3 { n ≤ length order.old }
    requires rows_4 { n ≤ N }
    requires rows_5 { N ≤ 4096 }
    requires total_value_1 { ask.total ≡ total (anchors_in s.now keys.now bytes.now n) }
    requires total_value_2 { ask.total < 2 ^ 63 }
    requires total_value_3 { ask.parts ≤ 64 }
    requires total_value_4 { length marks.old ≡ 64 }
    ensures { Marked s.now marks.new result (choice.chosen ask.parts ask.least (anchors_in s.now keys.now bytes.now n)) }
{
    let goal = goal_bytes(ask);
    if goal == 0 {
        return 0;
    }
    sort::<N>(s, keys, n, order);
    boundaries(s, keys, bytes, order, n, ask.parts, goal, marks)
}

// How a range ends with so many keys left: at the next one.
fn end_kind(left: usize) -> Kind
    ensures { result ≡ end_kind left }
{
    if 0 < left {
        Kind::Excluded
    } else {
        Kind::Unbounded
    }
}

// How many bytes the plan takes whose ranges meet at the marks.
#[tactic(auto, using(crate::proofs::PlanPut::size_exits))]
fn plan_size(s: &[u8], marks: &[usize], n: usize) -> usize
    requires fact_1 { Rows s.now marks.now n }
    requires fact_2 { n ≤ 63 }
    ensures { result ≡ length (plan_bytes (marked_keys s.now marks.now n)) }
{
    let mut size = 2;
    for i in 0..n {
        size += 5 + 2 * key_part(s, marks[i]).len();
    }
    size
}

// Writes the end of one range and the start of the next, both at one key.
#[tactic(auto, using(crate::proofs::PlanPut::joint_exits))]
fn put_joint(s: &[u8], at: usize, left: usize, out: &mut [u8], to: usize) -> usize
    requires fact_1 { T (is_got (read_key (drop at s.now))) }
    requires fact_2 { to + length (joint (key_there s.now at) left) ≤ length out.old }
    ensures value { result ≡ to + length (joint (key_there s.now at) left) }
    ensures out_after { out.new ≡ splice out.old to (joint (key_there s.now at) left) }
{
    let head = put_key(s, at, out, to);
    format::put_byte(out, head, format::head_byte(Kind::Included, end_kind(left)));
    put_key(s, at, out, head + 1)
}

// The same at each mark, past the count and the first range's head.
#[tactic(auto, using(crate::proofs::PlanPut::put_exits))]
fn put_joints(s: &[u8], marks: &[usize], n: usize, out: &mut [u8])
    requires fact_1 { Rows s.now marks.now n }
    requires fact_2 { 2 + length (joints (marked_keys s.now marks.now n)) ≤ length out.old }
    ensures { out.new ≡ splice out.old 2 (joints (marked_keys s.now marks.now n)) }
{
    let mut to = 2;
    for i in 0..n {
        to = put_joint(s, marks[i], n - (i + 1), out, to);
    }
}

// Writes the plan whose ranges meet at the marks.
#[tactic(auto, using(crate::proofs::PlanPut::plan_exits))]
fn put_plan(s: &[u8], marks: &[usize], n: usize, out: &mut [u8])
    requires fact_1 { Rows s.now marks.now n }
    requires fact_2 { n ≤ 63 }
    requires fact_3 { length (plan_bytes (marked_keys s.now marks.now n)) ≤ length out.old }
    ensures { out.new ≡ splice out.old 0 (plan_bytes (marked_keys s.now marks.now n)) }
{
    format::put_byte(out, 0, (n + 1) as u8);
    format::put_byte(out, 1, format::head_byte(Kind::Unbounded, end_kind(n)));
    put_joints(s, marks, n, out);
}

// Check 16, and then the plan.
#[tactic(auto, using(base::proofs::Outcome::written_exits, crate::proofs::PlanPut::at_front))]
fn write_plan(s: &[u8], marks: &[usize], n: usize, out: &mut [u8]) -> Written
    requires fact_1 { Rows s.now marks.now n }
    requires fact_2 { n ≤ 63 }
    ensures value { result ≡ reported (written_to (length out.old) (plan_bytes (marked_keys s.now marks.now n))) }
    ensures out_after { out.new ≡ lent out.old (written_to (length out.old) (plan_bytes (marked_keys s.now marks.now n))) }
{
    let size = plan_size(s, marks, n);
    if out.len() < size {
        return Written::Stop(16);
    }
    put_plan(s, marks, n, out);
    Written::Wrote(size)
}

// The plan of the anchors of the first n rows, with tables of N rows to work in. Callers have it apart for few and for many, so that
// a plan of few does not pay for the pages of the tables of many.
#[tactic(auto, using(crate::proofs::Choosing::planned_exits))]
pub fn planned<const N: usize>(
    s: &[u8],
    keys: &[usize],
    bytes: &[u64],
    n: usize,
    ask: Asked,
    out: &mut [u8],
) -> Written
    requires rows_1 { Rows s.now keys.now n }
    requires rows_2 { n ≤ length bytes.now }
    requires rows_3 { n ≤ N }
    requires rows_4 { N ≤ 4096 }
    requires total_value_1 { ask.total ≡ total (anchors_in s.now keys.now bytes.now n) }
    requires total_value_2 { ask.total < 2 ^ 63 }
    requires total_value_3 { ask.parts ≤ 64 }
    ensures value { result ≡ reported (plan_to (length out.old) ask.parts ask.least s.now keys.now bytes.now n) }
    ensures out_after { out.new ≡ lent out.old (plan_to (length out.old) ask.parts ask.least s.now keys.now bytes.now n) }
{
    let mut marks = [0usize; 64];
    let mut order = [0usize; N];
    let count = choose::<N>(s, keys, bytes, n, &mut order, ask, &mut marks);
    write_plan(s, &marks, count, out)
}
