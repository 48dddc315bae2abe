// Replays recorded answers of the Rust. Each record of standard input is a call, its arguments and the Rust's answer; the
// call is made here, and a line for each call says how many of its answers were the recorded bytes, whole.
#![tactic(auto)]

mod calls;

ghost use Rattle.std.specs.Prelude.{◌<◌};

use calls::Fields;
use replay::tally::{Tally, print_number};
use replay::{buffer, input, records};

// The length of a record's head.
const HEAD: usize = 12;

fn fields_of(head: &[u8]) -> Fields {
    Fields {
        call: input::byte_at(head, 0),
        x: input::byte_at(head, 1),
        y: input::byte_at(head, 2),
        z: input::byte_at(head, 3),
        room: input::number_at(head, 4),
    }
}

// The calls are 1 to 9, and an unknown one is counted as 0.
fn slot(call: u8) -> usize
    ensures { result < 10 }
{
    if call < 10 { usize::from(call) } else { 0 }
}

// Takes a record's body apart and makes the call.
fn body_agrees(f: Fields, body: &[u8], a: usize, b: usize, out: &mut [u8]) -> bool {
    let Some((a, rest)) = body.split_at_checked(a) else {
        return false;
    };
    let Some((b, answer)) = rest.split_at_checked(b) else {
        return false;
    };
    calls::agrees(f, a, b, answer, out)
}

// One record, once its head is read.
fn replay_record(
    head: &[u8],
    body: &mut [u8],
    out: &mut [u8],
    counts: &mut [Tally; 10],
) -> Result<(), usize> {
    let a = input::number_at(head, 6);
    let b = input::number_at(head, 8);
    let length = a + b + input::number_at(head, 10);
    let got = input::read_front(body, length);
    if got < length {
        return Err(HEAD + got);
    }
    let f = fields_of(head);
    let agreed = body_agrees(f, buffer::front(body, length), a, b, out);
    counts[slot(f.call)].count(agreed);
    Ok(())
}

fn print_counts(counts: &[Tally; 10]) {
    counts[1].print(b"compare");
    counts[2].print(b"cmp_bound");
    counts[3].print(b"non_empty");
    counts[4].print(b"intersect");
    counts[5].print(b"union");
    counts[6].print(b"from_prefix");
    counts[7].print(b"from_prefix_and_subrange");
    counts[8].print(b"as_point");
    counts[9].print(b"contains");
    print_number(b"unknown", counts[0].records);
}

fn main() {
    // Room for three lengths of 65,535 bytes.
    let mut body = [0u8; 196608];
    let mut out = io::large_buffer();
    let mut counts = [Tally::new(); 10];
    let left = records::replay_all::<HEAD, _>(|head| {
        replay_record(head, &mut body, &mut out, &mut counts)
    });
    print_counts(&counts);
    print_number(b"left over", left as u64);
}
