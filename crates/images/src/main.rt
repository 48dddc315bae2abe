// Builds images in memory and writes what the calls on images answer. The expected answers, in the file stdout, are
// document 01's. Lengths are written too: a line shows that its image is the one meant.
#![tactic(auto)]

mod build;

use image_report::case;

// The length of the sample, and of a run in it.
const SAMPLE: usize = 297;

const RUN: u8 = 148;

// Places of bytes in such a run: the last byte of the id and of the view count with its padding, then bytes of the first
// view, and the second view's first key.
const RUN_ID: u8 = 3;

const VIEW_COUNT: u8 = 5;

const INDEX_OFFSET: u8 = 38;

const INDEX_LEN: u8 = 46;

const LAST_KEY_FLAG: u8 = 62;

const FIRST_KEY_LENGTH: u8 = 63;

const FIRST_KEY: u8 = 65;

const VISIBLE_FLAG: u8 = 69;

const KINDS: u8 = 70;

const START_KEY: u8 = 73;

const SECOND_FIRST_KEY: u8 = 136;

// Two views: a table from a first key to a last key, and one without a last key. Neither has a visible range.
fn two_views(name: &[u8], first: &[u8], last: &[u8], next: &[u8], out: &mut [u8]) {
    let mut image = [0u8; 132];
    let views = build::one_run(&mut image, 2);
    let visible = build::closed_table(&mut image, views, 1, first, last);
    let second = build::number(&mut image, visible, 0, 1);
    let end = build::open_view(&mut image, second, 2, 0, 0, next);
    case(name, &image, end);
    image_report::listing(&image, end, out);
}

fn example() {
    let mut enough = [0u8; 113];
    two_views(b"document 01's example", b"a", b"c", b"d", &mut enough);
    let mut short = [0u8; 112];
    two_views(b"document 01's example", b"a", b"c", b"d", &mut short);
}

fn key_orders() {
    let mut out = [0u8; 113];
    two_views(b"empty keys", b"", b"", b"", &mut out);
    two_views(b"last key a, first key b", b"b", b"a", b"c", &mut out);
}

fn no_runs() {
    case(b"no runs", b"\x00", 1);
    let mut enough = [0u8; 25];
    image_report::listing(b"\x00", 1, &mut enough);
    let mut short = [0u8; 24];
    image_report::listing(b"\x00", 1, &mut short);
}

// A run of two views: [b, z] seen through [c, y), and [m, z] seen through [n, w).
fn sample_run(image: &mut [u8], at: usize, id: u64) -> usize {
    let first = build::run(image, at, id, 2);
    let second = build::shown_view(image, first, 1, b"b", b"z", b"c", b"y");
    build::shown_view(image, second, 2, b"m", b"z", b"n", b"w")
}

// Two such runs, 7 and 8.
fn sample(image: &mut [u8]) -> usize {
    let first = build::number(image, 0, 2, 1);
    let second = sample_run(image, first, 7);
    sample_run(image, second, 8)
}

// Changes a byte of the run that starts at a place of the sample.
fn change(image: &mut [u8], run: u8, place: u8, byte: u8) {
    build::number(
        image,
        usize::from(run) + usize::from(place),
        u64::from(byte),
        1,
    );
}

// Images that are short enough to be written out.
fn heads() {
    case(b"no bytes", b"", 0);
    case(b"a byte after no runs", b"\x00\x00", 2);
    case(b"a run count of 64 alone", b"\x40", 1);
    case(b"a run count of 65 alone", b"\x41", 1);
    case(b"a half of a view count", b"\x01\x00\x00\x00\x07\xff", 6);
    case(
        b"a view count of 1025 alone",
        b"\x01\x00\x00\x00\x07\x40\x10",
        7,
    );
}

fn runs(name: &[u8], count: u64) {
    let mut image = [0u8; 400];
    let end = build::runs(&mut image, count);
    case(name, &image, end);
}

// A run of views that start at one key, then some bytes more. One byte is changed; the byte at 0 is 1, the run count.
fn views(name: &[u8], count: u16, first: &[u8], more: usize, place: usize, byte: u64) {
    let mut image = [0u8; 65537];
    let start = build::one_run(&mut image, count);
    let rest = build::open_views(&mut image, start, u64::from(count), first);
    let end = build::number(&mut image, rest, 0, more);
    build::number(&mut image, place, byte, 1);
    case(name, &image, end);
}

fn counts() {
    runs(b"64 runs", 64);
    runs(b"65 runs", 65);
    views(b"1024 views", 1024, b"", 0, 0, 1);
    views(b"1024 views, padding set", 1024, b"", 0, 6, 1);
    views(b"1025 views", 1025, b"", 0, 0, 1);
    views(b"1025 views, padding set", 1025, b"", 0, 6, 17);
}

fn keys() {
    let longest = [97u8; 1024];
    views(b"key of 1024 bytes", 1, &longest, 0, 0, 1);
    let longer = [97u8; 1025];
    views(b"key of 1025 bytes", 1, &longer, 0, 0, 1);
    views(
        b"key of 1025 bytes, then padding set",
        1,
        &longer,
        0,
        1091,
        1,
    );
    views(b"padding set, then key of 1025 bytes", 1, &longer, 0, 6, 17);
}

// 7 bytes and 81 views of 809 are 65,536.
fn lengths() {
    let key = [97u8; 749];
    views(b"the longest image", 81, &key, 0, 0, 1);
    views(b"a byte after it", 81, &key, 1, 0, 1);
    views(b"a byte after it, padding set", 81, &key, 1, 6, 17);
}

fn size(name: &[u8], offset: u64, length: u64) {
    let mut image = [0u8; 67];
    let first = build::one_run(&mut image, 1);
    let end = build::open_view(&mut image, first, 1, offset, length, b"");
    case(name, &image, end);
}

fn sizes() {
    size(b"raw size 2^53 + 0", 9007199254740992, 0);
    size(b"raw size 1 + (2^53 - 1)", 1, 9007199254740991);
    size(b"raw size 2^53 + 1", 9007199254740992, 1);
    size(b"raw size 0 + (2^53 + 1)", 0, 9007199254740993);
    size(b"raw size (2^64 - 1) + 1", u64::MAX, 1);
    size(b"raw size (2^64 - 1) + (2^64 - 1)", u64::MAX, u64::MAX);
}

// The sample with a byte of run 7 changed, cut to a length or with a byte after it.
fn changed(name: &[u8], place: u8, byte: u8, length: usize) {
    let mut image = [0u8; 298];
    sample(&mut image);
    change(&mut image, 1, place, byte);
    case(name, &image, length);
}

// The reasons of the stops 1 to 3.
fn fields() {
    changed(b"sample", RUN_ID, 7, SAMPLE);
    changed(b"a byte after the sample", RUN_ID, 7, 298);
    changed(b"a half of a key length", FIRST_KEY_LENGTH, 255, 65);
    changed(b"a key length of 1025 alone", FIRST_KEY_LENGTH, 4, 66);
    changed(b"padding of a view count", VIEW_COUNT, 0x21, SAMPLE);
    changed(b"padding of a last-key flag", LAST_KEY_FLAG, 0x81, SAMPLE);
    changed(b"padding of a visible flag", VISIBLE_FLAG, 0xc0, SAMPLE);
    changed(b"padding of a range", KINDS, 0x61, SAMPLE);
    changed(b"start kind 3", KINDS, 0xe0, SAMPLE);
    changed(b"end kind 3", KINDS, 0x70, SAMPLE);
}

// The reasons of the stops 4 to 7.
fn values() {
    changed(b"visible range [y, y)", START_KEY, b'y', SAMPLE);
    changed(b"visible range (c, y)", KINDS, 0xa0, SAMPLE);
    changed(
        b"visible range [c, y), first key y",
        FIRST_KEY,
        b'y',
        SAMPLE,
    );
    changed(b"effective starts x, n", START_KEY, b'x', SAMPLE);
    changed(b"effective starts n, n", START_KEY, b'n', SAMPLE);
    changed(b"first keys b, a", SECOND_FIRST_KEY, b'a', SAMPLE);
    changed(b"run ids 8, 8", RUN_ID, 8, SAMPLE);
    changed(b"index_offset 2^63", INDEX_OFFSET, 128, SAMPLE);
    changed(b"index_len 2^63", INDEX_LEN, 128, SAMPLE);
}

// Brings a run of the sample to a stop.
fn fault(image: &mut [u8], run: u8, stop: u8) {
    match stop {
        // A key length of 769 runs past the end.
        1 => change(image, run, FIRST_KEY_LENGTH, 3),
        2 => change(image, run, VIEW_COUNT, 0x21),
        // A key length of 1,025.
        3 => change(image, run, FIRST_KEY_LENGTH, 4),
        4 => change(image, run, START_KEY, b'y'),
        5 => change(image, run, KINDS, 0xa0),
        6 => change(image, run, START_KEY, b'x'),
        7 => change(image, run, INDEX_OFFSET, 128),
        // For run 8 the id of run 7, which is stop 6 too.
        _ => change(image, run, RUN_ID, 7),
    }
}

// Both runs of the sample brought to a stop.
fn pair(first: u8, second: u8) {
    let mut image = [0u8; 297];
    sample(&mut image);
    fault(&mut image, 1, first);
    fault(&mut image, 1 + RUN, second);
    image_report::text(b"stop ");
    image_report::decimal(usize::from(first));
    if second == 8 {
        case(b" in run 7, run ids 7, 7", &image, SAMPLE);
    } else {
        image_report::text(b" in run 7, stop ");
        image_report::decimal(usize::from(second));
        case(b" in run 8", &image, SAMPLE);
    }
}

fn pairs() {
    for i in 0..56 {
        pair(i / 8 + 1, i % 8 + 1);
    }
}

// How many fronts of an image stop with 1, from the shortest on, before one does not.
fn cut_fronts(image: &[u8]) -> usize {
    (0..image.len())
        .take_while(|&n| front_stop(image, n) == 1)
        .count()
}

// The stop of a front, 0 if none.
fn front_stop(image: &[u8], length: usize) -> u8 {
    image_report::stop_or(
        bilqarush::check_image(image_report::front(image, length)),
        0,
    )
}

// The sample has each kind of field, and each front but the whole ends inside a field or before one.
fn fronts() {
    let mut image = [0u8; 297];
    sample(&mut image);
    let mut out = [0u8; 256];
    image_report::listing(&image, SAMPLE, &mut out);
    image_report::text(b"fronts of the sample that stop with 1: ");
    image_report::decimal(cut_fronts(&image));
    image_report::text(b"\n");
}

fn place(run: usize, view: usize) {
    let mut image = [0u8; 297];
    sample(&mut image);
    image_report::text(b"sample, run place ");
    image_report::decimal(run);
    image_report::text(b", view place ");
    image_report::decimal(view);
    image_report::text(b": ");
    image_report::range(&image, run, view);
}

fn places() {
    place(0, 0);
    place(1, 1);
    place(0, 2);
    place(2, 0);
    place(usize::MAX, usize::MAX);
}

fn main() {
    example();
    key_orders();
    no_runs();
    heads();
    counts();
    keys();
    lengths();
    sizes();
    fields();
    values();
    fronts();
    places();
    pairs();
}
