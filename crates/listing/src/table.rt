// A text whose first lines stand in a table.
ghost use Rattle.listing.specs.Cut.{lines_said};
ghost use Rattle.listing.specs.LineByLine.{Tabled};

use super::ordered::Ordered;

// A text, how many of its lines have no fault of their own, and these as they were sorted; of more than can be sorted there are none.
#[derive(Clone, Copy)]
pub struct LineTable<'a, 'b> {
    pub text: &'a [u8],
    pub count: usize,
    pub lines: Ordered<'b>,
    pub ghost tabled: { Tabled (lines_said text.now) count lines.rows.now lines.order.now },
}
