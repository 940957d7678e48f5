// Why something is refused: the numbers of the document's table by name.
ghost use Rattle.std.specs.Prelude.{◌≡◌};
ghost use Rattle.sheet.specs.FaultNumbers.{fault_number};

use super::Refusal;

#[derive(Clone, Copy, PartialEq, Eq)]
pub enum Fault {
    TooFewWords = 1,
    Form = 2,
    OfficeCount = 3,
    RowCount = 4,
    Layout = 5,
    NodeType = 6,
    NodeNumber = 7,
    NodeOffices = 8,
    NodeRepeated = 9,
    NodeOrder = 10,
    EdgeKind = 11,
    EdgeEnd = 12,
    EndTypes = 13,
    WithinItself = 14,
    EdgeOffices = 15,
    EdgeRepeated = 16,
    EdgeOrder = 17,
    NoOffice = 20,
    UnknownPerson = 21,
    UnknownDeed = 22,
    UnknownFolio = 23,
    UnknownCategory = 24,
    OutputShort = 25,
    NothingFound = 26,
    NoRule = 27,
    NotOneOffice = 28,
    UnionNodes = 29,
    UnionEdges = 30,
    EqualDeeds = 31,
    NoIdentity = 32,
    FileLength = 33,
    UnlikeLine = 40,
    LineNumber = 41,
    LineRepeated = 42,
    EndMissing = 43,
    EarlierMinute = 50,
    TableFull = 51,
    TraceRow = 54,
    FolioTwice = 59,
}

impl Fault {
    // Its number in the table.
    pub fn number(self) -> u32
        ensures { result ≡ fault_number self }
    {
        self as u32
    }

    // The refusal by it, at a sheet and a row.
    pub fn at(self, sheet: u32, row: u32) -> Refusal
        ensures { result ≡ record { number = fault_number self; sheet = sheet; row = row } }
    {
        Refusal {
            number: self.number(),
            sheet,
            row,
        }
    }
}

// A refusal that has no place.
impl From<Fault> for Refusal {
    ghost from_gives = { λ f r. r ≡ record { number = fault_number f; sheet = 0; row = 0 } };

    fn from(fault: Fault) -> Refusal {
        fault.at(0, 0)
    }
}
