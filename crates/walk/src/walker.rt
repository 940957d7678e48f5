// A walk over a sheet.
ghost use Rattle.sheet.specs.Seats.{Seated};
ghost use Rattle.walk.specs.Arcs.{Arranged};

use super::Walk;
use sheet::Sheet;

// A sheet and the walk that goes over it.
#[derive(Clone, Copy)]
pub struct Walker<'a> {
    pub sheet: Sheet<'a>,
    pub walk: Walk,
    pub ghost seated: { Seated walk.seat },
}

// A walk over a sheet whose arcs are in order, for any number of runs.
#[derive(Clone, Copy)]
pub struct Tour<'a> {
    pub walker: Walker<'a>,
    pub index: &'a [u32],
    pub ghost arranged: { Arranged walker.sheet.words.now walker.sheet.edges.now walker.sheet.header walker.walk index.now },
}
