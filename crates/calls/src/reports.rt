use messages::requests::Answer;

// A request that is answered, by its number.
#[derive(Clone, Copy, PartialEq, Eq, Debug)]
pub struct Answered {
    pub number: u32,
    pub answer: Answer,
}

// What a call that is not refused reports: the number that a start was given, the request settled, and the request answered.
// By default nothing.
#[derive(Clone, Copy, PartialEq, Eq, Default, Debug)]
pub struct Report {
    pub number: Option<u32>,
    pub settled: Option<u32>,
    pub answered: Option<Answered>,
}
