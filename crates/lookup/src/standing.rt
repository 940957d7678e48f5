// Where an identity's node row stands, of two sheets.

// In the first sheet or in the second, at a node row.
#[derive(Clone, Copy)]
pub enum Standing {
    First(usize),
    Second(usize),
}
