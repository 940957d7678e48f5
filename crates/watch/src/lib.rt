// The duty desk's watch: the emergencies that a history of rows holds, and the table that keeps them, advanced one row at a time.
#![tactic(auto)]

ghost use Rattle.std.specs.Prelude.{◌≡◌, ◌+◌, ◌≤◌, [], length, IfOk, IfErr, MatchResult, true, false, cond};
ghost use Rattle.sheet.specs.FaultNumbers.{fault_number};
ghost use Rattle.watch.specs.History.{changed, some, kind_number, spare_word, bad_row};
ghost use Rattle.watch.specs.WatchTable.{covers_minute, names_folio, place_held, turned_by, place_after, free_place, doubled, empty_place, refused_row, taken_row, started_row, entered, advanced, empty_watch, moved};
ghost use Rattle.watch.specs.Trace.{row_of_words, stepped_on, run_from, told_count, counted_trace};

use sheet::Fault;

// A row's kinds, by the numbers that stand in a trace.
#[derive(Clone, Copy, PartialEq, Eq)]
enum RowKind {
    Start = 1,
    End = 2,
    Question = 3,
}

// A table's places: no more folios are held at once.
const PLACES: usize = 32;

// A row of a trace, as its five words say. On a start and an end, person and deed are spare.
#[derive(Clone, Copy)]
pub struct TraceRow {
    pub minute: u32,
    pub kind: u32,
    pub folio: u32,
    pub person: u32,
    pub deed: u32,
}

// One place of the table: the minutes of its folio's latest start and of the latest start of an earlier minute, or the latest again where
// there is none. Any folio number may be named, so an empty place is told by its mark, which is 0.
// Stays: a mark beside the folio, since C keeps the table as words.
#[repr(C)]
#[derive(Clone, Copy, Default)]
pub struct Emergency {
    pub mark: u32,
    pub folio: u32,
    pub latest: u32,
    pub earlier: u32,
}

// The table: the last row's minute, and the emergencies. Where every word is 0 it is empty.
#[repr(C)]
#[derive(Clone, Copy)]
pub struct Watch {
    pub last: u32,
    pub places: [Emergency; PLACES],
}

// Whether a start at minute `start`, which is below `bound`, holds at a minute.
#[tactic(auto, using(crate::proofs::Tests::compared), unfolding(crate::specs::WatchTable::covers_minute))]
fn covering(start: u32, bound: u32, minute: u32, timeout: u32) -> bool
    ensures { result ≡ covers_minute start bound minute timeout }
{
    u64::from(minute) < u64::from(start) + u64::from(timeout) && start < bound
}

// Whether a place is used, and names the folio.
#[tactic(auto, using(crate::proofs::Tests::compared), unfolding(crate::specs::WatchTable::names_folio))]
fn naming(p: &Emergency, folio: u32) -> bool
    ensures { result ≡ names_folio folio p.now }
{
    p.mark != 0 && folio == p.folio
}

// Whether by this place some start below the minute `bound` holds the folio.
#[tactic(auto, using(crate::proofs::Tests::compared), unfolding(crate::specs::WatchTable::place_held))]
fn place_held(p: &Emergency, folio: u32, bound: u32, minute: u32, timeout: u32) -> bool
    ensures { result ≡ place_held bound minute timeout folio p.now }
{
    naming(p, folio)
        && (covering(p.latest, bound, minute, timeout)
            || covering(p.earlier, bound, minute, timeout))
}

// A place that has not expired, after a row of its own folio. In a start's own minute the folio is open by an earlier start only, so
// one start minute a place would not do.
#[tactic(auto, using(crate::proofs::Tests::compared), unfolding(crate::specs::WatchTable::turned_by))]
fn turn(p: &Emergency, kind: RowKind, row: &TraceRow) -> Emergency
    requires { kind_number kind ≡ row.now.kind }
    ensures { result ≡ turned_by row.now p.now }
{
    match kind {
        RowKind::End => Emergency::default(),
        RowKind::Start if p.latest < row.minute => Emergency {
            latest: row.minute,
            earlier: p.latest,
            ..*p
        },
        _ => *p,
    }
}

// A place after a row: empty once expired or ended.
#[tactic(auto, using(crate::proofs::Tests::compared), unfolding(crate::specs::WatchTable::place_after))]
fn place_after(p: &Emergency, kind: RowKind, row: &TraceRow, timeout: u32) -> Emergency
    requires { kind_number kind ≡ row.now.kind }
    ensures { result ≡ place_after row.now timeout p.now }
{
    if p.mark == 0 {
        return Emergency::default();
    }
    if u64::from(row.minute) < u64::from(p.latest) + u64::from(timeout) {
        if p.folio == row.folio {
            turn(p, kind, row)
        } else {
            *p
        }
    } else {
        Emergency::default()
    }
}

// The places after a row, but for a folio's first start.
fn turn_places(places: &mut [Emergency; PLACES], kind: RowKind, row: &TraceRow, timeout: u32)
    requires { kind_number kind ≡ row.now.kind }
    ensures { places.new ≡ changed (place_after row.now timeout) places.old }
{
    for p in places.iter_mut() {
        *p = place_after(p, kind, row, timeout);
    }
}

// Whether some place names the folio.
#[tactic(auto, unfolding(crate::specs::History::some))]
fn is_named(places: &[Emergency], folio: u32) -> bool
    ensures { result ≡ some (names_folio folio) places.now }
{
    places.iter().any(|p| naming(p, folio))
}

// Whether some folio is named in two places.
fn twice_named(places: &[Emergency; PLACES]) -> bool
    ensures { result ≡ doubled places.now }
{
    for (i, p) in places.iter().enumerate() {
        if p.mark != 0 && is_named(&places[i + 1..], p.folio) {
            return true;
        }
    }
    false
}

// The first empty place.
fn first_free(places: &[Emergency; PLACES]) -> Option<usize>
    ensures { result ≡ free_place places.now }
{
    places.iter().position(|p| p.mark == 0)
}

// Whether a row that is no question has a word too many.
#[tactic(auto, using(crate::proofs::Tests::compared), unfolding(crate::specs::History::spare_word))]
fn spare(row: &TraceRow) -> bool
    ensures { result ≡ spare_word row.now }
{
    row.person != 0 || row.deed != 0
}

// The kind of a row, of which a start and an end have no nonzero spare word.
#[tactic(auto, using(crate::proofs::Tests::compared), unfolding(crate::specs::History::bad_row))]
fn kind_of(row: &TraceRow) -> Result<RowKind, Fault>
    ensures ok { IfOk result (λ k. (kind_number k ≡ row.now.kind) × (bad_row row.now ≡ false)) }
    ensures err { IfErr result (λ f. (fault_number f ≡ 54) × (bad_row row.now ≡ true)) }
{
    match row.kind {
        1 if !spare(row) => Ok(RowKind::Start),
        2 if !spare(row) => Ok(RowKind::End),
        3 => Ok(RowKind::Question),
        _ => Err(Fault::TraceRow),
    }
}

// A start, over the places after its row: of a folio that is held already, or in the first empty place, or refused.
fn start_row(places: &mut [Emergency; PLACES], row: &TraceRow) -> Result<(), Fault>
    ensures { MatchResult result (λ _. (w : _) → started_row w row.now places.old ≡ taken_row row.now places.new 0) (λ f. (w : _) → started_row w row.now places.old ≡ refused_row w (fault_number f)) }
{
    if !is_named(places, row.folio) {
        let Some(at) = first_free(places) else {
            return Err(Fault::TableFull);
        };
        places[at] = Emergency {
            mark: 1,
            folio: row.folio,
            latest: row.minute,
            earlier: row.minute,
        };
    }
    Ok(())
}

// Whether by the places after a question its folio is open: some start of an earlier minute holds it.
#[tactic(auto, unfolding(crate::specs::History::some))]
fn is_open(places: &[Emergency; PLACES], row: &TraceRow, timeout: u32) -> bool
    ensures { result ≡ some (place_held row.now.minute row.now.minute timeout row.now.folio) places.now }
{
    places.iter().any(|p| place_held(p, row.folio, row.minute, row.minute, timeout))
}

// How many offices a question goes to: office 2, then office 1, while its folio is open, else office 1 alone.
fn offices_for(opened: bool) -> u32
    ensures { result ≡ cond opened 2 1 }
{
    if opened { 2 } else { 1 }
}

// A good row of a minute that is not below the table's.
#[tactic(auto, using(crate::proofs::Tests::compared), unfolding(crate::specs::WatchTable::entered, crate::specs::WatchTable::taken_row, crate::specs::WatchTable::refused_row, crate::specs::History::offices_for))]
fn enter_row(watch: &mut Watch, timeout: u32, kind: RowKind, row: &TraceRow) -> Result<u32, Fault>
    requires { kind_number kind ≡ row.now.kind }
    ensures { moved watch.new result ≡ entered watch.old timeout row.now (changed (place_after row.now timeout) watch.old.places) }
{
    let mut places = watch.places;
    turn_places(&mut places, kind, row, timeout);
    let offices = match kind {
        RowKind::Start => {
            start_row(&mut places, row)?;
            0
        }
        RowKind::End => 0,
        RowKind::Question => offices_for(is_open(&places, row, timeout)),
    };
    *watch = Watch {
        last: row.minute,
        places,
    };
    Ok(offices)
}

// A row put to a table that names no folio twice: nobody looks whether it does. How many offices its question goes to; a refused row leaves the
// table as it was.
#[tactic(auto, using(crate::proofs::Tests::compared), unfolding(crate::specs::WatchTable::advanced, crate::specs::WatchTable::refused_row))]
pub fn advance(watch: &mut Watch, timeout: u32, row: TraceRow) -> Result<u32, Fault>
    ensures { moved watch.new result ≡ advanced watch.old timeout row }
{
    if row.minute < watch.last {
        return Err(Fault::EarlierMinute);
    }
    let kind = kind_of(&row)?;
    enter_row(watch, timeout, kind, &row)
}

// The row of the five words from `at` on.
pub fn read_row(words: &[u32], at: usize) -> TraceRow
    requires { at + 5 ≤ length words.now }
    ensures { result ≡ row_of_words words.now at }
{
    TraceRow {
        minute: words[at],
        kind: words[at + 1],
        folio: words[at + 2],
        person: words[at + 3],
        deed: words[at + 4],
    }
}

// A row given as words, put to any table: 59 before the row is read, then 54 where it has other than five words.
#[tactic(auto, using(crate::proofs::Tests::compared), unfolding(crate::specs::Trace::stepped_on, crate::specs::WatchTable::refused_row))]
pub fn step_on(watch: &mut Watch, timeout: u32, words: &[u32]) -> Result<u32, Fault>
    ensures { moved watch.new result ≡ stepped_on watch.old timeout words.now }
{
    if twice_named(&watch.places) {
        return Err(Fault::FolioTwice);
    }
    if words.len() != 5 {
        return Err(Fault::TraceRow);
    }
    advance(watch, timeout, read_row(words, 0))
}

// The empty table.
pub fn empty_watch() -> Watch
    ensures { result ≡ empty_watch }
{
    Watch {
        last: 0,
        places: [Emergency::default(); PLACES],
    }
}

// What refuses a trace, or how many questions it asks. No office is needed for it, so a trace is judged before any is asked.
pub fn count_questions(timeout: u32, rows: &[u32]) -> Result<usize, Fault>
    ensures { told_count result ≡ counted_trace (run_from timeout [] rows.now) }
{
    let mut watch = empty_watch();
    let mut count = 0;
    let mut rest = rows;
    while let Some((row, later)) = rest.split_first_chunk::<5>() {
        if advance(&mut watch, timeout, read_row(row, 0))? != 0 {
            count += 1;
        }
        rest = later;
    }
    if rest.is_empty() {
        Ok(count)
    } else {
        Err(Fault::TraceRow)
    }
}
