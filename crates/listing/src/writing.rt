// Writing a listing: a line for each row of a one-office sheet, nodes then edges, measured first and then written by the same loop.
ghost use Rattle.std.specs.Prelude.{◌≡◌, ◌+◌, ◌*◌, ◌<◌, ◌≤◌};
ghost use Rattle.sheet.specs.Limits.{max_nodes, most_edges};
ghost use Rattle.sheet.specs.Refusals.{none, refuse};
ghost use Rattle.sheet.specs.Rows.{header_of, count_in};
ghost use Rattle.lines.specs.Nine.{line_text, line_room};
ghost use Rattle.listing.specs.Printed.{line_of_edge, row_line, printed_lines, printed, joint_sheet, PutsIfRoom};
ghost use Rattle.listing.specs.ListingTold.{listing_of, listing_by};
ghost use Rattle.listing.specs.Promises.{GivesListing, WritesListing};

use super::Listing;
use lines::{LINE_ROOM, Line};
use sheet::{APPLIES, Fault, Half, Node, Refusal, Sheet};

// The line of an edge row between two nodes.
fn edge_line(kind: u32, from: Node, to: Node) -> Line
    requires { kind ≤ 5 }
    ensures { result ≡ line_of_edge kind from to }
{
    let form = 4 + kind;
    if kind == APPLIES {
        return Line {
            fault: 0,
            form: form,
            first: from.number,
            second: from.variant,
            third: to.number,
        };
    }
    Line {
        fault: 0,
        form: form,
        first: from.number,
        second: to.number,
        third: to.variant,
    }
}

// The line of row i of a half.
fn row_line(half: Half, sheet: &Sheet<'_>, i: usize) -> Line
    requires { i < count_in half sheet.now.header }
    ensures { result ≡ row_line half sheet.now.words.now i }
{
    match half {
        Half::Nodes => {
            let r = sheet.node(i);
            Line {
                fault: 0,
                form: r.class,
                first: r.number,
                second: r.variant,
                third: 0,
            }
        }
        Half::Edges => {
            let e = sheet.edge(i);
            let a = sheet.node(e.from as usize);
            let b = sheet.node(e.to as usize);
            edge_line(e.kind, a, b)
        }
    }
}

// A line behind the first `at` bytes, if it fits there; the result is where it ends, or would.
fn put_behind(l: Line, out: &mut [u8], at: usize) -> usize
    requires { (1 ≤ l.form) × (l.form ≤ 9) × (at ≤ line_room * (max_nodes + most_edges)) }
    ensures { (result ≤ at + line_room) × PutsIfRoom out.old at (line_text l) result out.new }
{
    let mut line = [0u8; LINE_ROOM];
    let n = lines::put_line(l, &mut line);
    let end = at + n;
    if end <= out.len() {
        text::put_bytes(out, at, &line[..n]);
    }
    end
}

// The lines of a half, likewise.
fn put_rows(half: Half, sheet: &Sheet<'_>, out: &mut [u8], at: usize) -> usize
    requires { at ≤ line_room * max_nodes }
    ensures { (result ≤ at + line_room * count_in half sheet.now.header) × PutsIfRoom out.old at (printed_lines (row_line half sheet.now.words.now) (count_in half sheet.now.header)) result out.new }
{
    let mut end = at;
    for i in 0..sheet.count(half) {
        end = put_behind(row_line(half, sheet, i), out, end);
    }
    end
}

// All the lines, at the front, if they fit; the result is how long they are.
fn put_sheet(sheet: &Sheet<'_>, out: &mut [u8]) -> usize
    ensures { PutsIfRoom out.old 0 (printed sheet.now.words.now) result out.new }
{
    let at = put_rows(Half::Nodes, sheet, out, 0);
    put_rows(Half::Edges, sheet, out, at)
}

// Writes the lines of a sheet. They are first measured, in an empty text, as 25 writes nothing.
fn write_lines(sheet: &Sheet<'_>, out: &mut [u8]) -> Result<usize, Fault>
    ensures { GivesListing none (printed sheet.now.words.now) out.old (listing_by result) out.new }
{
    let size = put_sheet(sheet, &mut []);
    if out.len() < size {
        return Err(Fault::OutputShort);
    }
    put_sheet(sheet, out);
    Ok(size)
}

// Writes a sheet: one of two offices is refused.
fn write_checked(sheet: &Sheet<'_>, out: &mut [u8]) -> Result<usize, Refusal>
    ensures { GivesListing (refuse (joint_sheet (header_of sheet.now.words.now)) 1 0 none) (printed sheet.now.words.now) out.old (listing_of result) out.new }
{
    if sheet.header.offices != 1 {
        return Err(Fault::NotOneOffice.at(1, 0));
    }
    Ok(write_lines(sheet, out)?)
}

// Writes the sheet that words are, if they are one. It is lent where the check left it: a copy would cost C's entry more stack.
fn try_write(words: &[u32], out: &mut [u8]) -> Result<usize, Refusal>
    ensures { WritesListing words.now out.old (listing_of result) out.new }
{
    match &verdict::accept(1, words) {
        Ok(sheet) => write_checked(sheet, out),
        Err(refusal) => Err(*refusal),
    }
}

// Writes any words as a listing: how many bytes in `count`.
pub fn write_listing(sheet: &[u32], out: &mut [u8]) -> Listing
    ensures { WritesListing sheet.now out.old result out.new }
{
    Listing::from(try_write(sheet, out))
}
