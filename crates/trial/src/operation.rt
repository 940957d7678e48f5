// The operations, by the numbers that docs/TRIAL.md gives them.
use opened::Which;

// A question of words.
#[derive(Clone, Copy)]
pub enum WordQuestion {
    AnswerAtOffice,
    JointAnswer,
    Witness,
    IsPath,
}

// A question whose answer is a list, or the least of one.
#[derive(Clone, Copy)]
pub enum List {
    PersonsInCategory,
    PersonsWithGrant,
    FoliosOutOfReach,
    LeastTriple,
    LeastHolder,
    RedundantEdges,
}

// A question of a file's bytes.
#[derive(Clone, Copy)]
pub enum FileQuestion {
    Answer,
    JointAnswer,
    Witness,
}

// What is asked or done of one row.
#[derive(Clone, Copy)]
pub enum RowQuestion {
    FindNode,
    FindEdge,
    AddNode,
    AddEdge,
}

#[derive(Clone, Copy)]
pub enum Operation {
    Check,
    Ask(WordQuestion),
    List(List),
    LookUp,
    Join,
    TakeOut,
    AskOpened(Which),
    CheckFile,
    AskFile(FileQuestion),
    ReadListing,
    WriteListing,
    AskRow(RowQuestion),
    Trace,
    Step,
}

// A number that is no operation's.
#[derive(Clone, Copy, Debug, Drop)]
pub struct Unknown;

impl TryFrom<u32> for Operation {
    type Error = Unknown;

    fn try_from(number: u32) -> Result<Operation, Unknown> {
        match number {
            0 => Ok(Operation::Check),
            1 => Ok(Operation::Ask(WordQuestion::AnswerAtOffice)),
            2 => Ok(Operation::Ask(WordQuestion::JointAnswer)),
            3 => Ok(Operation::Ask(WordQuestion::Witness)),
            4 => Ok(Operation::Ask(WordQuestion::IsPath)),
            5 => Ok(Operation::List(List::PersonsInCategory)),
            6 => Ok(Operation::List(List::PersonsWithGrant)),
            7 => Ok(Operation::List(List::FoliosOutOfReach)),
            8 => Ok(Operation::List(List::LeastTriple)),
            9 => Ok(Operation::List(List::LeastHolder)),
            10 => Ok(Operation::List(List::RedundantEdges)),
            11 => Ok(Operation::LookUp),
            12 => Ok(Operation::Join),
            13 => Ok(Operation::TakeOut),
            14 => Ok(Operation::AskOpened(Which::AnswerAtOffice)),
            15 => Ok(Operation::AskOpened(Which::JointAnswer)),
            16 => Ok(Operation::AskOpened(Which::Witness)),
            20 => Ok(Operation::CheckFile),
            21 => Ok(Operation::AskFile(FileQuestion::Answer)),
            22 => Ok(Operation::AskFile(FileQuestion::JointAnswer)),
            23 => Ok(Operation::AskFile(FileQuestion::Witness)),
            30 => Ok(Operation::ReadListing),
            31 => Ok(Operation::WriteListing),
            32 => Ok(Operation::AskRow(RowQuestion::FindNode)),
            33 => Ok(Operation::AskRow(RowQuestion::FindEdge)),
            34 => Ok(Operation::AskRow(RowQuestion::AddNode)),
            35 => Ok(Operation::AskRow(RowQuestion::AddEdge)),
            36 => Ok(Operation::Trace),
            37 => Ok(Operation::Step),
            _ => Err(Unknown),
        }
    }
}
