// The image and the records of the job, field after field as document 01 lays them out.

// Bytes at a place of a buffer; answers the place past them. What does not fit is not put.
fn put(out: &mut [u8], at: usize, bytes: &[u8]) -> usize {
    if out.len() < at || out.len() - at < bytes.len() {
        return at;
    }
    let end = at + bytes.len();
    out[at..end].copy_from_slice(bytes);
    end
}

// 128 bits that are a small number.
fn id(out: &mut [u8], at: usize, number: u8) -> usize {
    let bits = [0, 0, 0, 0, 0, 0, 0, 0, 0, 0, 0, 0, 0, 0, 0, number];
    put(out, at, &bits)
}

// A key of one byte, after its length.
fn key(out: &mut [u8], at: usize, k: u8) -> usize {
    let length_and_byte = [0, 1, k];
    put(out, at, &length_and_byte)
}

// A table: its id; an index of 256 bytes at 4096, a filter at 3840; a last key is there; first key and last key.
fn table(out: &mut [u8], at: usize, number: u8, first: u8, last: u8) -> usize {
    let sizes = id(out, at, number);
    let flag = put(
        out,
        sizes,
        b"\0\0\0\0\0\0\x10\0\0\0\0\0\0\0\x01\0\0\0\0\0\0\0\x0f\0",
    );
    let first_key = put(out, flag, b"\x80");
    let last_key = key(out, first_key, first);
    key(out, last_key, last)
}

// A run of one view, which shows all of its table.
fn run(out: &mut [u8], at: usize, number: u8, first: u8, last: u8, head: &[u8]) -> usize {
    let view = put(out, at, head);
    let shown = id(out, view, number);
    let visible = table(out, shown, number, first, last);
    put(out, visible, b"\0")
}

// Two runs: 7 with the old table 1 from a to z, and 9 with table 2 from c to x.
pub fn image(out: &mut [u8]) -> usize {
    let seven = put(out, 0, b"\x02");
    let nine = run(out, seven, 1, b'a', b'z', b"\0\0\0\x07\0\x10");
    run(out, nine, 2, b'c', b'x', b"\0\0\0\x09\0\x10")
}

// The job: destination 7; two sources, 7 and 9; two parts. Then the first part, up to m, with its flag and its count of
// outputs, and two of these: from a to e and from f to h.
fn first_part(out: &mut [u8], flag_and_count: &[u8]) -> usize {
    let range = put(out, 0, b"\0\0\0\x07\x02\0\0\0\x07\0\0\0\x09\x02");
    let flag = put(out, range, b"\x20\0\x01m");
    let outputs = put(out, flag, flag_and_count);
    let second = table(out, outputs, 0x11, b'a', b'e');
    table(out, second, 0x12, b'f', b'h')
}

// The second part, from m on, with one output.
fn second_part(out: &mut [u8], at: usize, flag_and_count: &[u8]) -> usize {
    let flag = put(out, at, b"\x40\0\x01m");
    let outputs = put(out, flag, flag_and_count);
    table(out, outputs, 0x21, b'm', b'p')
}

// The worker stopped: both parts are unfinished.
pub fn half_way(out: &mut [u8]) -> usize {
    let second = first_part(out, b"\0\x02");
    second_part(out, second, b"\0\x01")
}

// One output more of each part, and the second is completed.
pub fn further(out: &mut [u8]) -> usize {
    let third = first_part(out, b"\0\x03");
    let second = table(out, third, 0x13, b'h', b'k');
    let last = second_part(out, second, b"\x80\x02");
    table(out, last, 0x22, b'q', b'y')
}

// Both are completed, the first with one output more.
pub fn completed(out: &mut [u8]) -> usize {
    let third = first_part(out, b"\x80\x04");
    let fourth = table(out, third, 0x13, b'h', b'k');
    let second = table(out, fourth, 0x14, b'k', b'l');
    let last = second_part(out, second, b"\x80\x02");
    table(out, last, 0x22, b'q', b'y')
}
