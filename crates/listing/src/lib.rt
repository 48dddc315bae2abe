// The listing of an image: measured first, then written.
#![tactic(auto)]

mod measure;
mod write;

pub use measure::listing_len;
pub use write::put_listing;

// How far the image was read, and how far the text goes.
#[derive(Clone, Copy)]
pub struct Reached {
    pub next: usize,
    pub to: usize,
}
