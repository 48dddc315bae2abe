// The ids of tables and of views: 16 bytes each, and never compared with each other.
ghost use Rattle.std.specs.Prelude.{◌≡◌, ◌+◌, ◌≤◌, length, take, drop};

#[derive(Clone, Copy)]
pub struct TableId(pub [u8; 16]);

#[derive(Clone, Copy)]
pub struct ViewId(pub [u8; 16]);

// The id of a table, at a place.
pub fn table_id_at(s: &[u8], at: usize) -> TableId
    requires { at + 16 ≤ length s.now }
    ensures { result.0 ≡ take 16 (drop at s.now) }
{
    TableId(<[u8; 16]>::try_from(&s[at..at + 16]).unwrap())
}
