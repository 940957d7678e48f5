// An office's answer, and the rules that make one of the answers of several.
ghost use Rattle.std.specs.Prelude.{◌≡◌, ◌≤◌, ltb, map, length, position};
ghost use Rattle.sheet.specs.Limits.{max_offices};
ghost use Rattle.meaning.specs.Answers.{answered, undetermined_answer, jointly};
ghost use Rattle.ask.specs.JointRules.{answer_number, rule_number, RuleIs, gives_answer, DecidesBy, joint_told};

use question::Told;
use sheet::Fault;

// What an office answers, by the sides of which it sees a path. meaning's specs/Answers.antt has the same numbers for the proofs.
#[derive(Clone, Copy, PartialEq, Eq)]
pub enum OfficeAnswer {
    Undetermined,
    Granted,
    Banned,
    Both,
}

// How several answers make one.
#[derive(Clone, Copy, PartialEq, Eq)]
pub enum JointRule {
    GrantFirst = 1,
    DenyFirst = 2,
    FirstApplicable = 3,
}

impl OfficeAnswer {
    // By whether there is a grant path and whether there is a ban path.
    pub(crate) fn of(grants: bool, bans: bool) -> OfficeAnswer
        ensures { answer_number result ≡ answered grants bans }
    {
        match (grants, bans) {
            (false, false) => OfficeAnswer::Undetermined,
            (true, false) => OfficeAnswer::Granted,
            (false, true) => OfficeAnswer::Banned,
            (true, true) => OfficeAnswer::Both,
        }
    }

    // Whether an office that answers so gives what is wanted, Granted or Banned: it, or Both.
    fn gives_side(self, wanted: OfficeAnswer) -> bool
        ensures { result ≡ gives_answer (answer_number wanted) (answer_number self) }
    {
        self == wanted || self == OfficeAnswer::Both
    }

    // Whether an office that answers so sees a path.
    fn is_determined(self) -> bool
        ensures { result ≡ ltb undetermined_answer (answer_number self) }
    {
        self != OfficeAnswer::Undetermined
    }
}

// An answer by its number in the document.
impl From<OfficeAnswer> for u32 {
    ghost from_gives = { λ r n. n ≡ answer_number r };

    fn from(answer: OfficeAnswer) -> u32 {
        answer as u32
    }
}

// A rule by its number in the document, or 27.
impl TryFrom<u32> for JointRule {
    type Error = Fault;

    ghost try_from_gives = { RuleIs };

    fn try_from(number: u32) -> Result<JointRule, Fault> {
        match number {
            1 => Ok(JointRule::GrantFirst),
            2 => Ok(JointRule::DenyFirst),
            3 => Ok(JointRule::FirstApplicable),
            _ => Err(Fault::NoRule),
        }
    }
}

// The place of the lowest office that gives what is wanted, counted from 0.
fn first_giving(answers: &[OfficeAnswer], wanted: OfficeAnswer) -> Option<usize>
    ensures { result ≡ position (λ r. gives_answer (answer_number wanted) (answer_number r)) answers.now }
{
    answers.iter().position(|r| r.gives_side(wanted))
}

// The place of the lowest office that is not undetermined, counted from 0.
fn first_determined(answers: &[OfficeAnswer]) -> Option<usize>
    ensures { result ≡ position (λ r. ltb undetermined_answer (answer_number r)) answers.now }
{
    answers.iter().position(|r| r.is_determined())
}

// A side, if some office gives it: the lowest that does decides.
fn side_decides(answers: &[OfficeAnswer], side: OfficeAnswer) -> Option<Told>
    requires { length answers.now ≤ max_offices }
    ensures { DecidesBy (gives_answer (answer_number side)) (λ r. answer_number side) answers.now result }
{
    let i = first_giving(answers, side)?;
    Some(Told {
        value: side.into(),
        count: i as u32 + 1,
    })
}

// The answer of the lowest office that is not undetermined.
fn first_decides(answers: &[OfficeAnswer]) -> Option<Told>
    requires { length answers.now ≤ max_offices }
    ensures { DecidesBy (λ r. ltb undetermined_answer r) (λ r. r) answers.now result }
{
    let i = first_determined(answers)?;
    Some(Told {
        value: answers[i].into(),
        count: i as u32 + 1,
    })
}

// The joint answer of offices under a rule, and the office that decides; Undetermined and 0 where none does.
pub(crate) fn joint_of(answers: &[OfficeAnswer], rule: JointRule) -> Told
    requires { length answers.now ≤ max_offices }
    ensures { joint_told result ≡ jointly (rule_number rule) (map answer_number answers.now) }
{
    let granted = side_decides(answers, OfficeAnswer::Granted);
    let banned = side_decides(answers, OfficeAnswer::Banned);
    let decided = match rule {
        JointRule::GrantFirst => granted.or(banned),
        JointRule::DenyFirst => banned.or(granted),
        JointRule::FirstApplicable => first_decides(answers),
    };
    decided.unwrap_or(Told {
        value: OfficeAnswer::Undetermined.into(),
        count: 0,
    })
}
