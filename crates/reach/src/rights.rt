// The walks by which an office is asked of both rights.
ghost use Rattle.reach.specs.Toured.{Prepared};

use question::OfficeSheet;
use walk::Tour;

// The walks of both rights over an office's sheet, for any deed, with their arcs in order.
#[derive(Clone, Copy)]
pub struct Rights<'a, 'g, 'b> {
    pub at: OfficeSheet<'a>,
    pub grants: Tour<'g>,
    pub bans: Tour<'b>,
    pub ghost granting: { Prepared at 3 grants },
    pub ghost banning: { Prepared at 4 bans },
}
