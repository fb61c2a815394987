// What a call gives, for a run of any kind: Q is its question, E what it says at an end.
ghost use Rattle.std.specs.Prelude.{◌≡◌};
ghost use Rattle.panoc_engine.specs.Told.{refusal_number};

// The table's refusals by what is wrong, at a start, at an answer, and within a run that then ends, with the table's numbers. 9 is a
// failure, which has the host's code.
#[derive(Clone, Copy, PartialEq, Eq, Debug)]
pub enum Refusal {
    Sizes = 1,
    Mappings = 2,
    Limits = 3,
    Tolerances = 4,
    Multipliers = 5,
    Over = 6,
    Kind = 7,
    Lengths = 8,
    FirstCost = 10,
    HalfCost = 11,
    DoubledCost = 12,
    FirstIterate = 13,
    Candidate = 14,
    Plan = 15,
    LastCost = 16,
    OutOfTime = 17,
    Infeasibility = 18,
    InitialGuess = 19,
}

impl Refusal {
    // The number that the table gives it. No impl of From, whose ghost member would say what the clause says.
    pub fn number(self) -> u32
        ensures { result ≡ refusal_number self }
    {
        self as u32
    }
}

// The next question, the end with what it says, a refusal, or the host's failure by its code.
#[derive(Clone, Copy, PartialEq, Eq, Debug)]
pub enum Outcome<Q, E> {
    Asked(Q),
    Ended(E),
    Refused(Refusal),
    Failed(u32),
}

// What a call in place gives, with the small part of the run: its vectors are where they were lent.
#[derive(Clone, Copy, PartialEq, Debug)]
pub struct Stepped<O, S> {
    pub outcome: O,
    pub state: S,
}

// What a call by value gives, with the run.
#[derive(Drop)]
pub struct Answered<O, R> {
    pub outcome: O,
    pub run: R,
}
