// A walk over one half of two sheets, key by key.
ghost use Rattle.std.specs.Prelude.{◌≤◌};
ghost use Rattle.sheet.specs.Rows.{count_in};

use super::Halves;

// How far the walk has come in each sheet.
#[derive(Drop)]
pub struct Merge<'a> {
    pub halves: &'a Halves<'a>,
    pub i: usize,
    pub j: usize,
    pub ghost first_in: { i ≤ count_in halves.now.half halves.now.first.now.header },
    pub ghost second_in: { j ≤ count_in halves.now.half halves.now.second.now.header },
}
