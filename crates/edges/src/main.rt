// Runs document 01's edges through the public calls and writes what they answer. The starred ones are also proved, as
// rows of one list, in specs/Edges.antt. Lines are written by file number, since a write that fails is to end nothing: `println!`
// would answer an error, to be let go at each line, and would drop the rest of a line whose start failed.
#![tactic(auto)]

use base::Written;
use bilqarush::{Compared, Covered, Estimated, Tested};

fn print_stop(n: u8) {
    io::write_all(1, b": stop ");
    io::print_decimal(1, u64::from(n));
    io::write_all(1, b"\n");
}

fn print_test(name: &[u8], t: Tested) {
    io::write_all(1, name);
    match t {
        Tested::Stop(n) => print_stop(n),
        Tested::Is(yes) => {
            if yes {
                io::write_all(1, b": yes\n");
            } else {
                io::write_all(1, b": no\n");
            }
        }
    }
}

fn print_order(name: &[u8], c: Compared) {
    io::write_all(1, name);
    match c {
        Compared::Stop(n) => print_stop(n),
        Compared::Order(z) => {
            if z < 0 {
                io::write_all(1, b": -1\n");
            } else if z == 0 {
                io::write_all(1, b": 0\n");
            } else {
                io::write_all(1, b": 1\n");
            }
        }
    }
}

fn print_bytes(b: &[u8]) {
    for &x in b {
        io::print_hex(1, u64::from(x), 2);
    }
}

// A range image or a plan that was written, in hexadecimal.
fn print_range(name: &[u8], out: &[u8], w: Written) {
    io::write_all(1, name);
    match w {
        Written::Stop(n) => print_stop(n),
        Written::Wrote(n) => {
            io::write_all(1, b": ");
            if let Some(written) = out.get(..n) {
                print_bytes(written);
            }
            io::write_all(1, b"\n");
        }
    }
}

// The partitions from one place up to, without, another.
fn print_places(name: &[u8], c: Covered) {
    io::write_all(1, name);
    match c {
        Covered::Stop(n) => print_stop(n),
        Covered::Places(start, end) => {
            io::write_all(1, b": ");
            io::print_decimal(1, start as u64);
            io::write_all(1, b"..");
            io::print_decimal(1, end as u64);
            io::write_all(1, b"\n");
        }
    }
}

fn ranges() {
    print_test(
        b"[a,a) passes",
        bilqarush::non_empty(b"\x60\x00\x01a\x00\x01a"),
    );
    print_test(
        b"[a,a] passes",
        bilqarush::non_empty(b"\x50\x00\x01a\x00\x01a"),
    );
    print_test(
        b"[a,a] holds a",
        bilqarush::contains(b"\x50\x00\x01a\x00\x01a", b"a"),
    );
    print_test(
        b"(a,a00) passes",
        bilqarush::non_empty(b"\xa0\x00\x01a\x00\x02a\x00"),
    );
    print_test(
        b"(a,a00) holds a",
        bilqarush::contains(b"\xa0\x00\x01a\x00\x02a\x00", b"a"),
    );
    print_test(
        b"(a,a00) holds a00",
        bilqarush::contains(b"\xa0\x00\x01a\x00\x02a\x00", b"a\x00"),
    );
}

fn bounds() {
    print_order(
        b"starts [a, (a",
        bilqarush::cmp_bound(1, b"a", 2, b"a", true),
    );
    print_order(
        b"ends a], a)",
        bilqarush::cmp_bound(1, b"a", 2, b"a", false),
    );
}

fn prefixes() {
    let mut out = [0u8; 16];
    let w = bilqarush::from_prefix(b"\x61\xff", &mut out);
    print_range(b"prefix 61ff", &out, w);
    let mut next = [0u8; 16];
    let v = bilqarush::from_prefix(b"\xff\xff", &mut next);
    print_range(b"prefix ffff", &next, v);
}

// Indexes of blocks at offset 0.
fn partitions() {
    let four =
        b"\x00\x04\x00\x00\x00\x00\x00\x00\x00\x00\x00\x01a\x00\x00\x00\x00\x00\x00\x00\x00\x00\x01b\x00\x00\x00\x00\x00\x00\x00\x00\x00\x01b\x00\x00\x00\x00\x00\x00\x00\x00\x00\x01d";
    print_places(
        b"first keys a,b,b,d: point b",
        bilqarush::partitions_covering_range(four, b"\x50\x00\x01b\x00\x01b"),
    );
    print_places(
        b"first keys a,b,b,d: - to b)",
        bilqarush::partitions_covering_range(four, b"\x20\x00\x01b"),
    );
    let one = b"\x00\x01\x00\x00\x00\x00\x00\x00\x00\x00\x00\x01b";
    print_places(
        b"first key b: point a",
        bilqarush::partitions_covering_range(one, b"\x50\x00\x01a\x00\x01a"),
    );
}

fn print_size(name: &[u8], e: Estimated) {
    io::write_all(1, name);
    match e {
        Estimated::Stop(n) => print_stop(n),
        Estimated::Bytes(n) => {
            io::write_all(1, b": ");
            io::print_decimal(1, n);
            io::write_all(1, b"\n");
        }
    }
}

// Run 7 with one view, of a table with index_offset 5. A line each: count and run, view id, table id, the three sizes, keys, visible range.
fn sizes() {
    let image = b"\x01\x00\x00\x00\x07\x00\x10\
          \x00\x00\x00\x00\x00\x00\x00\x00\x00\x00\x00\x00\x00\x00\x00\x01\
          \x00\x00\x00\x00\x00\x00\x00\x00\x00\x00\x00\x00\x00\x00\x00\x01\
          \x00\x00\x00\x00\x00\x00\x00\x05\x00\x00\x00\x00\x00\x00\x00\x00\x00\x00\x00\x00\x00\x00\x00\x00\
          \x80\x00\x01\x00\x00\x01\x80\
          \x80\x60\x00\x01\x00\x00\x01\x40";
    print_size(
        b"keys 00 to 80, visible [00,40), raw size 5",
        bilqarush::estimate_visible_size(image, 0, 0),
    );
}

// The anchors split into at most so many parts, of at least so many bytes.
fn print_plan(name: &[u8], parts: usize, least: u64, anchors: &[u8]) {
    let mut out = [0u8; 16];
    let w = bilqarush::select_boundaries(parts, least, anchors, &mut out);
    print_range(name, &out, w);
}

// Four anchors, a line each.
fn plans() {
    let tens = b"\x00\x04\
          \x00\x01a\x00\x00\x00\x00\x00\x00\x00\x0a\
          \x00\x01b\x00\x00\x00\x00\x00\x00\x00\x0a\
          \x00\x01c\x00\x00\x00\x00\x00\x00\x00\x0a\
          \x00\x01d\x00\x00\x00\x00\x00\x00\x00\x0a";
    print_plan(b"a,b,c,d of 10, 2 parts, least 0", 2, 0, tens);
    print_plan(b"a,b,c,d of 10, 4 parts, least 40", 4, 40, tens);
    let heavy_first = b"\x00\x04\
          \x00\x01a\x00\x00\x00\x00\x00\x00\x00\x05\
          \x00\x01b\x00\x00\x00\x00\x00\x00\x00\x1e\
          \x00\x01b\x00\x00\x00\x00\x00\x00\x00\x0a\
          \x00\x01c\x00\x00\x00\x00\x00\x00\x00\x05";
    print_plan(b"a 5, b 30, b 10, c 5, 2 parts", 2, 0, heavy_first);
    let heavy_next = b"\x00\x04\
          \x00\x01a\x00\x00\x00\x00\x00\x00\x00\x05\
          \x00\x01b\x00\x00\x00\x00\x00\x00\x00\x0a\
          \x00\x01b\x00\x00\x00\x00\x00\x00\x00\x1e\
          \x00\x01c\x00\x00\x00\x00\x00\x00\x00\x05";
    print_plan(b"a 5, b 10, b 30, c 5, 2 parts", 2, 0, heavy_next);
}

// What an interval leaves of a range.
fn print_left<'a>(name: &[u8], interval: &'a [u8], range: &'a [u8]) {
    let mut out = [0u8; 16];
    let w = bilqarush::subtract_from(interval, range, &mut out);
    print_range(name, &out, w);
}

fn subtractions() {
    let interval = b"\x60\x00\x01c\x00\x01f";
    print_left(b"[a,z] less [c,f)", interval, b"\x50\x00\x01a\x00\x01z");
    print_left(b"[c,f] less [c,f)", interval, b"\x50\x00\x01c\x00\x01f");
}

// What of a job is durable.
fn print_durable(name: &[u8], job: &[u8]) {
    let mut out = [0u8; 16];
    let w = bilqarush::from_compaction(job, &mut out);
    print_range(name, &out, w);
}

// Run 7 into itself, with a part from c on, unfinished. A line each: destination, sources and parts; planned range, flag and outputs;
// id; the three sizes; keys.
fn progress() {
    let at_the_start = b"\x00\x00\x00\x07\x01\x00\x00\x00\x07\x01\
          \x40\x00\x01c\x00\x01\
          \x00\x00\x00\x00\x00\x00\x00\x00\x00\x00\x00\x00\x00\x00\x00\x01\
          \x00\x00\x00\x00\x00\x00\x00\x00\x00\x00\x00\x00\x00\x00\x00\x00\x00\x00\x00\x00\x00\x00\x00\x00\
          \x80\x00\x01c\x00\x01c";
    print_durable(b"unfinished from c, last key c", at_the_start);
    let later = b"\x00\x00\x00\x07\x01\x00\x00\x00\x07\x01\
          \x40\x00\x01c\x00\x01\
          \x00\x00\x00\x00\x00\x00\x00\x00\x00\x00\x00\x00\x00\x00\x00\x01\
          \x00\x00\x00\x00\x00\x00\x00\x00\x00\x00\x00\x00\x00\x00\x00\x00\x00\x00\x00\x00\x00\x00\x00\x00\
          \x80\x00\x01c\x00\x01f";
    print_durable(b"unfinished from c, last key f", later);
}

// Keys at the ceiling, and past it.
fn keys() {
    let longest = [97u8; 1024];
    let longer = [97u8; 1025];
    print_order(
        b"two keys of 1024 bytes",
        bilqarush::compare(&longest, &longest),
    );
    print_order(
        b"keys of 1024 and 1025 bytes",
        bilqarush::compare(&longest, &longer),
    );
}

// Buffers at the ceiling, and past it: a buffer's length is checked before its fields.
fn buffers() {
    let largest = [0u8; 65536];
    let larger = [0u8; 65537];
    print_test(
        b"a range image of 65536 bytes",
        bilqarush::non_empty(&largest),
    );
    print_test(
        b"a range image of 65537 bytes",
        bilqarush::non_empty(&larger),
    );
    print_order(
        b"unbounded with 65536 bytes",
        bilqarush::cmp_bound(0, &largest, 0, b"", true),
    );
    print_order(
        b"unbounded with 65537 bytes",
        bilqarush::cmp_bound(0, &larger, 0, b"", true),
    );
    print_order(
        b"kind 3 with 65537 bytes",
        bilqarush::cmp_bound(3, &larger, 0, b"", true),
    );
}

fn main() {
    ranges();
    bounds();
    prefixes();
    partitions();
    sizes();
    plans();
    subtractions();
    progress();
    keys();
    buffers();
}
