// The calls of bilqarush that plan and those on durable intervals, made with a record's arguments.
use replay::buffer;
use replay::piece::Fields;

// Whether a record's call answers what it recorded. An unknown call never does. The lent buffer is filled first, so that a byte
// which is not to be written is seen if it is.
pub fn agrees<'a>(
    f: Fields,
    first: &'a [u8],
    second: &'a [u8],
    answer: &[u8],
    out: &mut [u8],
) -> bool {
    buffer::fill(out);
    let w = match f.call {
        1 => bilqarush::sample_anchors(f.x, f.y as u64, first, second, out),
        2 => bilqarush::select_boundaries(f.x, f.y as u64, first, out),
        3 => bilqarush::plan_subcompaction_ranges(f.x, first, second, out),
        10 => bilqarush::from_compaction(first, out),
        11 => bilqarush::subtract_from(first, second, out),
        _ => return false,
    };
    buffer::written_is(answer, out, w)
}
