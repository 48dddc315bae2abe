// The layouts of document 01, "Images", beyond keys and ranges: tables, views, runs, jobs, blocks, anchors. What is read is
// read in place: an answer says where it stands. An image is read by one reader alone.
#![tactic(auto)]

mod blocks;
mod fields;
mod ids;
mod parts;
mod reader;
mod runs;
mod tables;
mod there;
mod views;

pub use blocks::{AnchorRead, BlockRead, anchor_at, block_at};
pub use ids::{TableId, ViewId, table_id_at};
pub use parts::{JobRead, PartRead, job_head, part_at};
pub use reader::{Reader, at_end, run_at, run_there, runs_at, runs_there, view_at, view_there};
pub use runs::{CountRead, RunRead, count_at};
pub use tables::{TableRead, TableSpan, table_at};
pub use there::{BlockSpan, RunSpan, block_there, blocks_past, table_there, views_end};
pub use views::{ViewRead, ViewSpan};
