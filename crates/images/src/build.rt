// Builds images field by field in a lent buffer, as document 01, "Images", lays them out. Each function puts its fields
// at a place and answers the place after them; what has no room is left out.

pub fn number(image: &mut [u8], at: usize, n: u64, width: usize) -> usize {
    if image.len() < at || image.len() - at < width {
        return at;
    }
    format::put_number(image, at, n, width);
    at + width
}

pub fn key(image: &mut [u8], at: usize, k: &[u8]) -> usize {
    let from = number(image, at, k.len() as u64, 2);
    if image.len() < from || image.len() - from < k.len() {
        return from;
    }
    let end = from + k.len();
    image[from..end].copy_from_slice(k);
    end
}

pub fn run(image: &mut [u8], at: usize, id: u64, views: u16) -> usize {
    let count = number(image, at, id, 4);
    number(image, count, u64::from(views) * 16, 2)
}

// An image of one run, up to its views. The run has the id 7.
pub fn one_run(image: &mut [u8], views: u16) -> usize {
    let first = number(image, 0, 1, 1);
    run(image, first, 7, views)
}

// A view up to its table's keys. Its table has the same id.
fn head(image: &mut [u8], at: usize, id: u64, offset: u64, length: u64, flag: u64) -> usize {
    let table = number(image, at, id, 16);
    let index_offset = number(image, table, id, 16);
    let index_len = number(image, index_offset, offset, 8);
    let filter_offset = number(image, index_len, length, 8);
    let last_key = number(image, filter_offset, 0, 8);
    number(image, last_key, flag, 1)
}

// A view of a table without a last key, and without a visible range.
pub fn open_view(
    image: &mut [u8],
    at: usize,
    id: u64,
    offset: u64,
    length: u64,
    first: &[u8],
) -> usize {
    let keys = head(image, at, id, offset, length, 0);
    let visible = key(image, keys, first);
    number(image, visible, 0, 1)
}

// A view up to its visible flag, of a table from a first key to a last key.
pub fn closed_table(image: &mut [u8], at: usize, id: u64, first: &[u8], last: &[u8]) -> usize {
    let keys = head(image, at, id, 0, 0, 128);
    let last_key = key(image, keys, first);
    key(image, last_key, last)
}

// A view with a visible range whose start is included and whose end is excluded.
pub fn shown_view(
    image: &mut [u8],
    at: usize,
    id: u64,
    first: &[u8],
    last: &[u8],
    start: &[u8],
    end: &[u8],
) -> usize {
    let visible = closed_table(image, at, id, first, last);
    let kinds = number(image, visible, 128, 1);
    let start_key = number(image, kinds, 0x60, 1);
    let end_key = key(image, start_key, start);
    key(image, end_key, end)
}

// Views that start at one key.
pub fn open_views(image: &mut [u8], at: usize, count: u64, first: &[u8]) -> usize {
    let mut to = at;
    for id in 0..count {
        to = open_view(image, to, id, 0, 0, first);
    }
    to
}

// An image of runs without views.
pub fn runs(image: &mut [u8], count: u64) -> usize {
    let mut to = number(image, 0, count, 1);
    for id in 0..count {
        to = run(image, to, id, 0);
    }
    to
}
