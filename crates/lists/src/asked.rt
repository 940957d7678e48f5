// A question as it is asked: at its own office.
ghost use Rattle.std.specs.Prelude.{◌≡◌};
ghost use Rattle.question.specs.Asked.{seat_for};

use question::{OfficeSheet, Question};

// A question, and the sheet at the office that it names.
#[derive(Clone, Copy)]
pub struct AskedAt<'a> {
    pub at: OfficeSheet<'a>,
    pub question: Question,
    pub ghost own: { at.seat ≡ seat_for question },
}
