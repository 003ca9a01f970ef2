// 01's table of answers: what a call on a unit answers, the number of each answer, and how many bytes it sends.
#![tactic(auto)]

ghost use Rattle.std.specs.Prelude.{◌≡◌};
ghost use Rattle.answer.specs.Answers.{number_of, sent_of};

// What a call answers. A reply that is sent has so many bytes, the written first part of a reply buffer.
#[derive(Clone, Copy)]
pub enum Answer {
    // A byte taken, or an empty run closed.
    Taken,
    // A command done: poll set, and poll clear.
    Acked(usize),
    Done,
    // A command refused: poll set, and poll clear.
    Nacked(usize),
    Refused,
    // A run dropped.
    Framing,
    Runt,
    Oversize,
    BadCrc,
    // A sound message for another address.
    Elsewhere,
    // An access to memory not fitted.
    Unfitted,
    // A call refused: the unit's strap, the length of EDAC memory, FRAM, sums, diagnostics, a message or reply buffer, the
    // count of a receiver, the port, and the limit.
    BadStrap,
    BadEdac,
    BadFram,
    BadSums,
    BadDiagnostics,
    BadBuffers,
    BadCount,
    BadPort,
    BadLimit,
}

// 01's number.
impl From<Answer> for u8 {
    ghost from_gives = { λ answer number. number ≡ number_of answer };

    fn from(answer: Answer) -> u8 {
        match answer {
            Answer::Taken => 0,
            Answer::Acked(_) => 1,
            Answer::Done => 2,
            Answer::Nacked(_) => 3,
            Answer::Refused => 4,
            Answer::Framing => 5,
            Answer::Runt => 6,
            Answer::Oversize => 7,
            Answer::BadCrc => 8,
            Answer::Elsewhere => 9,
            Answer::Unfitted => 10,
            Answer::BadStrap => 20,
            Answer::BadEdac => 21,
            Answer::BadFram => 22,
            Answer::BadSums => 23,
            Answer::BadDiagnostics => 24,
            Answer::BadBuffers => 25,
            Answer::BadCount => 26,
            Answer::BadPort => 27,
            Answer::BadLimit => 29,
        }
    }
}

impl Answer {
    // How many bytes of a reply buffer are sent.
    pub fn sent(self) -> usize
        ensures { result ≡ sent_of self }
    {
        match self {
            Answer::Acked(n) | Answer::Nacked(n) => n,
            _ => 0,
        }
    }
}
