//! The refusals: a call answers its figures, or one of these numbers.
ghost use Rattle.paging.specs.Refusals.{number};
ghost use Rattle.std.specs.Prelude.{◌≡◌};

/// Why a call was refused. The first question that is answered "no" gives the number.
#[derive(Clone, Copy, Debug, PartialEq, Eq)]
pub enum Refusal {
    /// The recording has less than three bytes.
    TooShort = 1,
    /// Version, kind or zero bits of the recording are other than they should be.
    BadHeader = 2,
    /// The recording counts more than 4,096 references.
    TooManyReferences = 3,
    /// The recording is shorter or longer than its count says.
    WrongLength = 4,
    /// The spare bits of the recording's last byte are not zero.
    SpareBitsSet = 5,
    /// The name is not in the list, and no place is free for it.
    NoPlaceForName = 6,
    /// The numbers do not fit a name.
    NameTooLarge = 7,
    /// The string has 4,096 references already.
    StringFull = 8,
    /// More references are to be taken back than the string has.
    StringTooShort = 9,
    /// The letter is not that of a policy.
    UnknownLetter = 10,
    /// The frame count is not from 1 to 64.
    BadFrameCount = 11,
    /// The policy has no edge.
    PolicyWithoutEdge = 12,
    /// No frame count from 1 to 64 is within the ceiling.
    NoFrameCountWithin = 13,
    /// The pager holds pages already.
    PagerHoldsPages = 14,
    /// The window is not from 1 to 4,096.
    BadWindow = 15,
    /// A code of the string has no name in the list.
    CodeWithoutName = 16,
    /// The provided memory is too short for the output.
    OutputTooShort = 17,
}

impl Refusal {
    /// The refusal's number.
    // A method: `u8::from` would say the same and be no plainer.
    pub fn number(self) -> u8
        ensures { result ≡ number self }
    {
        self as u8
    }
}
