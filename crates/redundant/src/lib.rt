// Question 10 at an office: the rows that are redundant, each judged by walks without its step.
#![tactic(auto)]

ghost use Rattle.std.specs.Prelude.{◌≡◌, ◌<◌, length, Some};
ghost use Rattle.sheet.specs.Limits.{most_edges};
ghost use Rattle.meaning.specs.Answers.{Says};
ghost use Rattle.meaning.specs.Questions.{RedundantRow, RedundantEdgesAre};
ghost use Rattle.reach.specs.Finds.{Finds};
ghost use Rattle.redundant.specs.Pruned.{step_of, LedPast, has_ban};

use question::OfficeSheet;
use reach::Rights;
use sheet::{BAN, Edge, GRANT, MEMBER};
use walk::{Step, Tour, Walker};

// The step that a row makes.
fn step_of(e: Edge) -> Step
    ensures { result ≡ step_of e }
{
    Step {
        from: e.from,
        to: e.to,
    }
}

// Whether other steps lead from a row's one end to the other, by the walk to a right.
fn leads_past(tour: &Tour<'_>, e: Edge) -> bool
    requires { (e.from < tour.now.walker.sheet.header.nodes) × (e.to < tour.now.walker.sheet.header.nodes) }
    ensures { Says result (LedPast tour.now.walker e) }
{
    let past = Tour {
        walker: Walker {
            sheet: tour.walker.sheet,
            walk: walk::leaving_out(tour.walker.walk, Some(step_of(e))),
        },
        index: tour.index,
    };
    let d = past.reach(e.from);
    let to = e.to as usize;
    d[to] != 0
}

// Whether the office has a ban row.
fn has_ban_row(at: &OfficeSheet<'_>) -> bool
    ensures { result ≡ has_ban at.now }
{
    for j in 0..at.sheet.header.edges {
        let e = at.sheet.edge(j as usize);
        if sheet::counts(at.seat, e) & (e.kind == BAN) {
            return true;
        }
    }
    false
}

// Whether both walks lead past a row.
fn both_lead_past(rights: &Rights<'_, '_, '_>, e: Edge) -> bool
    requires { (e.from < rights.now.at.sheet.header.nodes) × (e.to < rights.now.at.sheet.header.nodes) }
    ensures { Says result (LedPast rights.now.grants.walker e × LedPast rights.now.bans.walker e) }
{
    let up = leads_past(&rights.grants, e);
    up && leads_past(&rights.bans, e)
}

// Whether an edge row counts for the seat and is redundant there; `bans` says whether the office has a ban row. A ban is judged by the bans' walk, any other row by the grants', and a membership by both where there is a ban to lose.
fn is_redundant(rights: &Rights<'_, '_, '_>, bans: bool, j: u32) -> bool
    requires { (j < rights.now.at.sheet.header.edges) × (bans ≡ has_ban rights.now.at) }
    ensures { Says result (RedundantRow rights.now.at.sheet.words.now rights.now.at.seat.office j) }
{
    let e = rights.at.sheet.edge(j as usize);
    if !sheet::counts(rights.at.seat, e) {
        return false;
    }
    if e.kind == BAN {
        return leads_past(&rights.bans, e);
    }
    if bans & (e.kind == MEMBER) {
        return both_lead_past(rights, e);
    }
    leads_past(&rights.grants, e)
}

// The rows that are redundant from the seat, rising.
fn prune(rights: &Rights<'_, '_, '_>, bans: bool, list: &mut [u32]) -> u32
    requires { (bans ≡ has_ban rights.now.at) × (length list.old ≡ most_edges) }
    ensures { Finds (RedundantEdgesAre rights.now.at.sheet.words.now rights.now.at.seat.office) list.new (Some result) }
{
    let mut n = 0;
    for j in 0..rights.at.sheet.header.edges {
        n = reach::put(list, n, is_redundant(rights, bans, j), j);
    }
    n
}

// Question 10 from the seat: the rows that are redundant, rising.
pub fn redundant_edges_at(at: &OfficeSheet<'_>, list: &mut [u32]) -> Option<u32>
    requires { length list.old ≡ most_edges }
    ensures { Finds (RedundantEdgesAre at.now.sheet.words.now at.now.seat.office) list.new result }
{
    let mut grantindex = walk::blank_index();
    let mut banindex = walk::blank_index();
    let rights = Rights {
        at: *at,
        grants: reach::tour_of(*at, GRANT, &mut grantindex),
        bans: reach::tour_of(*at, BAN, &mut banindex),
    };
    Some(prune(&rights, has_ban_row(at), list))
}
