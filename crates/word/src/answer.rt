// What a check answers, as C and the programs are told it: a number of the table of refusals, 0 for acceptance, and three details.
ghost use Rattle.std.specs.Prelude.{◌≡◌};
ghost use Rattle.word.specs.Answers.{answer, accepted, refused};
ghost use Rattle.word.specs.Refusals.{refusal_answer, answer_of, answer_with};

use crate::refusal::Refusal;

#[derive(Clone, Copy, Debug, PartialEq, Eq)]
pub struct Answer {
    pub number: u32,
    pub first: u32,
    pub second: u32,
    pub third: u32,
}

impl Answer {
    pub fn new(number: u32, first: u32, second: u32, third: u32) -> Self
        ensures { result ≡ answer number first second third }
    {
        Self {
            number,
            first,
            second,
            third,
        }
    }

    // Acceptance: number 0 with no details.
    pub fn accepted() -> Self
        ensures { result ≡ accepted }
    {
        Self {
            number: 0,
            first: 0,
            second: 0,
            third: 0,
        }
    }

    // A refusal that names no details.
    pub fn refused(number: u32) -> Self
        ensures { result ≡ refused number }
    {
        Self {
            number,
            first: 0,
            second: 0,
            third: 0,
        }
    }
}

impl From<Refusal> for Answer {
    ghost from_gives = { λ r a. a ≡ refusal_answer r };

    fn from(r: Refusal) -> Self {
        Self::new(r.number.code(), r.first, r.second, r.third)
    }
}

// A check that hands nothing out.
impl From<Result<(), Refusal>> for Answer {
    ghost from_gives = { λ r a. a ≡ answer_of r };

    fn from(outcome: Result<(), Refusal>) -> Self {
        match outcome {
            Ok(()) => Self::accepted(),
            Err(refusal) => refusal.into(),
        }
    }
}

// A check that hands a number out, as the first detail of its acceptance.
impl From<Result<u32, Refusal>> for Answer {
    ghost from_gives = { λ r a. a ≡ answer_with r };

    fn from(outcome: Result<u32, Refusal>) -> Self {
        match outcome {
            Ok(first) => Self::new(0, first, 0, 0),
            Err(refusal) => refusal.into(),
        }
    }
}
