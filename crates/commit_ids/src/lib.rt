// View ids: the one that a view has, the one that publishes a table, and new ones from the lent supply.
#![tactic(auto)]

ghost use Rattle.std.specs.Prelude.{◌≡◌, ◌≤◌, ◌+◌, length, take, drop};
ghost use Rattle.incremental_progress.specs.Ids.{publishing_id};
ghost use Rattle.incremental_progress.specs.Draws.{supply, draw};
ghost use Rattle.commit_ids.specs.Supply.{DrawFound};

use records::{TableId, ViewId};

// The id of a view, at a place.
pub fn view_id_at(s: &[u8], at: usize) -> ViewId
    requires { at + 16 ≤ length s.now }
    ensures { result.0 ≡ take 16 (drop at s.now) }
{
    ViewId(<[u8; 16]>::try_from(&s[at..at + 16]).unwrap())
}

// The id of the view that publishes a table: the one place where an id of one kind becomes one of the other. No `From`, which
// every crate could call: ids of the two kinds are never taken for each other (docs/PAPER.md).
fn publishing_id(id: TableId) -> ViewId
    ensures { result ≡ publishing_id id }
{
    ViewId(id.0)
}

// The id of the view that publishes the table whose id stands at a place.
pub fn published_id(s: &[u8], at: usize) -> ViewId
    requires { at + 16 ≤ length s.now }
    ensures { result.0 ≡ take 16 (drop at s.now) }
{
    publishing_id(records::table_id_at(s, at))
}

// The next ten bytes from a place of the supply on that, with the time of the old id, make another id than the old one.
pub fn draw(old: ViewId, ids: &[u8], from: usize) -> Option<usize>
    requires { from ≤ length ids.now }
    ensures { DrawFound ids.now (draw old (supply (drop from ids.now))) result }
{
    for i in 0..(ids.len() - from) / 10 {
        let at = from + 10 * i;
        if ids[at..at + 10] != old.0[6..] {
            return Some(at);
        }
    }
    None
}
