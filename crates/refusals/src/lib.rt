// Why a script is refused.
#![tactic(auto)]

ghost use Rattle.std.specs.Prelude.{◌≡◌};
ghost use Rattle.refusals.specs.Refusals.{number_of};

// The first question that is answered no: its variant says what is wrong, its number is the question's.
#[derive(Clone, Copy, PartialEq, Eq, Debug)]
pub enum Refusal {
    ScriptTooLong = 1,
    MemoryTooShort = 2,
    UnknownByte = 3,
    NumberTooLarge = 4,
    UnexpectedWord = 5,
    UnboundName = 6,
    NameTaken = 7,
    NotCallable = 8,
    OutsideMethod = 9,
    BlockEnded = 10,
    OverLimit = 11,
    NoFunction = 12,
    UndeclaredAttribute = 13,
    NotAnObject = 14,
    UnknownMember = 15,
    MissingArgument = 16,
    NeedsReceiver = 17,
    Subtraction = 18,
    KindsClash = 19,
    WaitingListFull = 20,
}

impl From<Refusal> for u8 {
    ghost from_gives = { λ r n. n ≡ number_of r };

    fn from(r: Refusal) -> u8 {
        r as u8
    }
}

impl From<Refusal> for usize {
    ghost from_gives = { λ r n. n ≡ number_of r };

    fn from(r: Refusal) -> usize {
        r as usize
    }
}
