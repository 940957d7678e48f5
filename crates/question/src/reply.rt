// What a question tells, or what refuses it, as one answer.
ghost use Rattle.std.specs.Prelude.{◌≡◌};
ghost use Rattle.question.specs.Replies.{refused_by, tells};
ghost use Rattle.question.specs.Telling.{answer_of};

use super::Answer;
use sheet::Refusal;

// What a question tells where nothing refuses it.
#[derive(Clone, Copy)]
pub struct Told {
    pub value: u32,
    pub count: u32,
}

impl From<Refusal> for Answer {
    ghost from_gives = { λ r a. a ≡ refused_by r };

    fn from(refusal: Refusal) -> Answer {
        Answer {
            number: refusal.number,
            sheet: refusal.sheet,
            row: refusal.row,
            ..Answer::default()
        }
    }
}

impl From<Told> for Answer {
    ghost from_gives = { λ t a. a ≡ tells t.value t.count };

    fn from(told: Told) -> Answer {
        Answer {
            value: told.value,
            count: told.count,
            ..Answer::default()
        }
    }
}

// C takes one struct for both.
impl From<Result<Told, Refusal>> for Answer {
    ghost from_gives = { λ r a. a ≡ answer_of r };

    fn from(reply: Result<Told, Refusal>) -> Answer {
        match reply {
            Ok(told) => told.into(),
            Err(refusal) => refusal.into(),
        }
    }
}
