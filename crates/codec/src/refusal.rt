// The refusals of this crate, with their fixed numbers.
ghost use Rattle.std.specs.Prelude.{◌≡◌};
ghost use Rattle.codec.specs.Answers.{refusal_number};

// 20 to 22 refuse an image as a whole, 23, 27, 28 and 24 a record, 25 a lent buffer, and 26 what is no message.
#[derive(Clone, Copy, PartialEq, Eq, Debug)]
pub enum Refusal {
    NoOpening = 20,
    OverLimit = 21,
    TableNotExact = 22,
    WrongKind = 23,
    OutOfSequence = 24,
    NoRoom = 25,
    NoMessage = 26,
    WrongTransaction = 27,
    WrongField = 28,
}

impl Refusal {
    pub fn number(self) -> u8
        ensures { result ≡ refusal_number self }
    {
        self as u8
    }
}
