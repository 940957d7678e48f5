// What a walk reaches from a row, as numbers and in identities, and how what is found is collected in a list.
#![tactic(auto)]

ghost use Rattle.std.specs.Prelude.{◌+◌, ◌<◌, ◌≤◌, length};
ghost use Rattle.sheet.specs.Limits.{max_nodes, most_edges};
ghost use Rattle.walk.specs.Outset.{Blank};
ghost use Rattle.reach.specs.Finds.{Puts};
ghost use Rattle.reach.specs.Toured.{Prepared, ReachedBy};

mod rights;

use question::OfficeSheet;
pub use rights::Rights;
use walk::{Tour, Walker};

// One number for each node row.
const ROWS: usize = sheet::MAX_NODES as usize;

// Puts a word behind the first n of a list, where it is wanted; how many there are then.
// Stays: a struct of the list and its count is no plainer, since each call and each loop would have to say that the list in it is still the caller's.
pub fn put(list: &mut [u32], n: u32, good: bool, x: u32) -> u32
    requires { (n < length list.old) × (n ≤ 1000000) }
    ensures { Puts good x list.old n list.new result }
{
    if !good {
        return n;
    }
    let at = n as usize;
    list[at] = x;
    n + 1
}

// The walk of a right for any deed over an office's sheet, its arcs put in order.
pub fn tour_of<'a>(at: OfficeSheet<'a>, right: u32, index: &'a mut [u32]) -> Tour<'a>
    requires { Blank (max_nodes + most_edges) index.old }
    ensures { Prepared at.entry right result }
{
    let walker = Walker {
        sheet: at.sheet,
        walk: walk::walk_of(at.seat, right, 0),
    };
    walker.arrange(index);
    Tour { walker, index }
}

// A walk's numbers from a person's row.
pub fn person_reach(tour: &Tour<'_>, from: u32) -> [u32; ROWS]
    requires { from < tour.now.walker.sheet.header.nodes }
    ensures { ReachedBy tour.now.walker from result }
{
    tour.reach(from)
}
