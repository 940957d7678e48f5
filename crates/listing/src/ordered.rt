// The lines of a listing as they were sorted.
ghost use Rattle.listing.specs.LineByLine.{InOrder};

// Lines as rows of four words, and the rows' numbers in the order of their words.
#[derive(Clone, Copy)]
pub struct Ordered<'a> {
    pub rows: &'a [u32],
    pub order: &'a [u32],
    pub ghost in_order: { InOrder rows.now order.now },
}
