// The checks 4 to 7 of an image and an index, the total of anchors, and the effective ranges of an image's views.
#![tactic(auto)]

mod anchors;
mod checks;
mod images;
mod indexes;
mod ranges;

pub use anchors::added;
pub use checks::{keys_in_order, lesser, size_passes};
pub use images::{Judged, image_judged, views_judged};
pub use indexes::{index_at, index_judged};
pub use ranges::{effective, own_end, own_start};
