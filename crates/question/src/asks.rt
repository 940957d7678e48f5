// What a question asks for: grants, or bans.
ghost use Rattle.std.specs.Prelude.{◌≡◌};
ghost use Rattle.meaning.specs.Paths.{right_kind};
ghost use Rattle.question.specs.Asked.{side_of};
ghost use Rattle.question.specs.Sides.{side};

use sheet::{BAN, GRANT};

// What a question's kind asks for: grants, or bans, which any other number asks for too.
pub const OF_GRANTS: u32 = 0;

pub const OF_BANS: u32 = 1;

// What is asked for.
#[derive(Clone, Copy, PartialEq, Eq)]
pub enum Asks {
    Grants,
    Bans,
}

// A question's kind is any word: all but 0 ask for bans.
impl From<u32> for Asks {
    ghost from_gives = { λ kind a. side a ≡ side_of kind };

    fn from(kind: u32) -> Asks {
        if kind == OF_GRANTS {
            Asks::Grants
        } else {
            Asks::Bans
        }
    }
}

impl Asks {
    // The kind of the edges that give the right.
    pub fn edge_kind(self) -> u32
        ensures { result ≡ right_kind (side self) }
    {
        match self {
            Asks::Grants => GRANT,
            Asks::Bans => BAN,
        }
    }
}
