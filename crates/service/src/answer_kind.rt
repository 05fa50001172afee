// The kind of an answer, with its number: docs/RELAY.md, "Answers".
ghost use Rattle.std.specs.Prelude.{◌≡◌};
ghost use Rattle.service.specs.AnswerKind.{number_of};

#[derive(Clone, Copy, Debug, PartialEq, Eq)]
pub enum AnswerKind {
    MoreNeeded,
    Refused,
    Written,
    Placed,
    Ended,
    Found,
    KeysStored,
    Delivery,
    Removed,
    Version,
    Page,
    // The relay's own, here and below: no call was made.
    Unknown = 128,
    TooLong,
    Misshapen,
}

// The kind's number.
impl From<AnswerKind> for u8 {
    ghost from_gives = { λ kind n. n ≡ number_of kind };

    fn from(kind: AnswerKind) -> u8 {
        kind as u8
    }
}
