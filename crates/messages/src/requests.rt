ghost use Rattle.std.specs.Prelude.{◌≡◌};
ghost use Rattle.messages.specs.Answers.{answer_number, answer_value};

use crate::assignments::Assignment;

// What a user asks of the pool for one key.
#[derive(Clone, Copy, PartialEq, Eq, Debug)]
pub enum Request {
    CarbonCopy,
    Put(Assignment),
    GetIfAnyAndPut(Assignment),
    GetAndPutIfAny(Assignment),
    GetIfAny,
    Remove,
}

// What a request is answered.
#[derive(Clone, Copy, PartialEq, Eq, Debug)]
pub enum Answer {
    // none: there was no assignment
    Nothing,
    // the assignment that was there before
    Old(Assignment),
    Stored,
    Removed,
}

impl Answer {
    // 0 none, 1 the old assignment, 2 stored, 3 removed. A match, since a variant that holds an assignment has no discriminant to cast.
    pub fn number(self) -> u8
        ensures { result ≡ answer_number self }
    {
        match self {
            Answer::Nothing => 0,
            Answer::Old(_) => 1,
            Answer::Stored => 2,
            Answer::Removed => 3,
        }
    }

    // The assignment that the answer brings.
    pub fn assignment(self) -> Option<Assignment>
        ensures { result ≡ answer_value self }
    {
        match self {
            Answer::Old(old) => Some(old),
            _ => None,
        }
    }
}
