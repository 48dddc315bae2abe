// The calls on visible sizes, each made with a record's places and held to its answer.
use crate::calls::after_word;
use bilqarush::{Estimated, Shown, VisibleFraction};
use replay::answer;
use replay::piece::Fields;

// A fraction is recorded by its bits, so that no other float agrees with it. A NaN has none, and no answer is one.
fn part_is(answer: &[u8], part: f64) -> bool {
    !part.is_nan() && answer::is_end(after_word(answer, &[0, 1], part.to_bits()))
}

fn fraction_is(answer: &[u8], f: VisibleFraction) -> bool {
    match f {
        VisibleFraction::Whole => answer::is_value(answer, 0),
        VisibleFraction::Part(part) => part_is(answer, part),
    }
}

fn shown_is(answer: &[u8], s: Shown) -> bool {
    match s {
        Shown::Stop(n) => answer::is_stop(answer, n),
        Shown::Fraction(f) => fraction_is(answer, f),
    }
}

fn estimated_is(answer: &[u8], e: Estimated) -> bool {
    match e {
        Estimated::Stop(n) => answer::is_stop(answer, n),
        Estimated::Bytes(n) => answer::is_end(after_word(answer, &[0], n)),
    }
}

// Whether a record's call answers what it recorded.
pub fn agrees(f: Fields, image: &[u8], answer: &[u8]) -> bool {
    match f.call {
        12 => shown_is(answer, bilqarush::visible_fraction(image, f.x, f.y)),
        13 => estimated_is(answer, bilqarush::estimate_visible_size(image, f.x, f.y)),
        14 => estimated_is(answer, bilqarush::estimate_run_visible_size(image, f.x)),
        _ => false,
    }
}
