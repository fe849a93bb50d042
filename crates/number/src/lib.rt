// The numbers of the format, and what every reader and writer of it answers: values, and refusals (error codes).
// What the bytes are is defined in specs/; no code runs here but what turns an answer into the number that C gets.
#![tactic(auto)]

ghost use Rattle.std.specs.Prelude.{◌≡◌, ◌<◌};
ghost use Rattle.number.specs.Output.{packed};
ghost use Rattle.number.specs.Answer.{code};

// Why a call is refused: document 01's refusals, by their numbers.
#[derive(Clone, Copy, Debug, PartialEq, Eq)]
pub enum Refusal {
    // The input ends before the number does.
    Cut = 1,
    // The fifth byte is too large, or the form is not the shortest.
    Malformed = 2,
    // The version is not 1 to 3.
    BadVersion = 3,
    // A count is outside its range.
    BadCount = 4,
    // Another field is outside its range, an entry's task is an ISR, or a mask has a bit for a body of kind 3.
    BadField = 5,
    // A body before has this priority.
    UsedPriority = 6,
    // An entry does not come after the one before it.
    Unsorted = 7,
    // This entry count takes the total over 64.
    TooManyEntries = 8,
    // Bytes are left over.
    LeftOver = 9,
    // A configuration is longer than 4,096 bytes.
    TooLong = 10,
    // An entry has the offset of the one before it, and either is of kind 3.
    SharedOffset = 13,
    // A table has entries of kind 3 and others, or is the second that has entries of kind 3.
    MixedTable = 14,
    // A trace is longer than 8,192 bytes.
    TraceTooLong = 20,
    // A trace ends before a number of it does.
    TraceCut = 21,
    // A number of a trace is malformed.
    TraceMalformed = 22,
    // The code is none of 1 to 12.
    UnknownEvent = 23,
    // The writer's: an argument that the event lacks is not 0.
    StrayArgument = 24,
    // The output is too short for what is to be written.
    NoRoom = 30,
    // The body does not wait to begin.
    NotWaiting = 31,
    // A resource is held after the trace.
    ResourceInUse = 32,
    // There is no such body.
    NoSuchBody = 34,
    // The configuration has extended or time-triggered tasks.
    OtherKinds = 35,
    // The start value is 0.
    ZeroStart = 50,
    // All weights are 0, or a limit is.
    NothingToDraw = 51,
    // A sign that is none of OIL's, or a comment that is not closed.
    UnreadableSign = 60,
    // A word that may not stand where it does.
    UnexpectedWord = 61,
    // A name where an object or an attribute may stand.
    UnknownWord = 62,
    // A name or an attribute is given twice.
    GivenTwice = 63,
    // No RESOURCE has the name.
    NoResource = 64,
    // A record is not whole answers, or has more than there are events.
    BadRecord = 70,
}

// A refusal and its place (byte offset): the byte that decides it, or for NoRoom the number of bytes needed.
#[derive(Clone, Copy, Debug, PartialEq, Eq)]
pub struct Refused {
    pub refusal: Refusal,
    pub place: usize,
}

// A value that was read, and the place after it.
#[derive(Clone, Copy, Debug, PartialEq, Eq)]
pub struct Reading<T> {
    pub value: T,
    pub place: usize,
}

impl Refusal {
    // Document 01's number.
    pub fn code(self) -> u8
        ensures { result ≡ code self }
    {
        self as u8
    }
}

impl Refused {
    // The answer of a refused call over the C boundary: the refusal's number and the place as one number.
    pub fn packed(self) -> u64
        ensures { self.place < 9223372036854775808 → result ≡ packed (code self.refusal) self.place }
    {
        (u64::from(self.refusal.code()) << 32).wrapping_add(self.place as u64)
    }
}
