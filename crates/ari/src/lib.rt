// The two inputs and their limits, as the definitions and the functions have them. What an ARI and a message are stands in specs/.
#![tactic(auto)]

ghost use Rattle.std.specs.Prelude.{◌≡◌, ◌≤◌, min};
ghost use Rattle.ari.specs.Refusals.{number_of, fault_of, refusal_of};
ghost use Rattle.ari.specs.Limits.{gate_limits, capped};

// What is read: a single ARI in binary form, or an AMP message.
#[derive(Clone, Copy)]
pub enum Input {
    Single,
    Message,
}

// The most bytes, items and open containers of a binary input, and the most bytes of a text.
#[derive(Clone, Copy)]
pub struct Limits {
    pub bytes: usize,
    pub items: usize,
    pub containers: usize,
    pub text: usize,
}

// Why an input is refused. Each has the number of the rules, which C and the programs give.
#[derive(Clone, Copy, PartialEq, Eq)]
pub enum Fault {
    TooLong = 1,
    Truncated = 2,
    UnusedHead = 3,
    LongFloat = 4,
    TooManyItems = 5,
    TooDeep = 6,
    Misplaced = 7,
    WrongVersion = 8,
    StringCut = 9,
    Misspelt = 10,
    KeyOrder = 11,
    NoParameters = 12,
    BytesBehind = 13,
    NoText = 14,
    NoAri = 15,
    NoRoom = 16,
    NoSuchNumber = 17,
    Clash = 18,
    BadLine = 19,
    BadTrailer = 20,
    BadOffset = 21,
    BadMessage = 22,
    DayFull = 23,
    BadText = 24,
    MonthFull = 25,
    TotalTooLarge = 26,
    NoSuchTarget = 27,
}

impl Fault {
    pub fn number(self) -> u8
        ensures { result ≡ number_of self }
    {
        self as u8
    }
}

// An input is refused: why, and where, or how many.
#[derive(Clone, Copy, PartialEq, Eq)]
pub struct Refusal {
    pub fault: Fault,
    pub place: usize,
}

// The fault of a number that the rules have; 0 has the first, and what is beyond them has the last. 0 and 1 stand in two arms: a run of numbers in one
// arm would be compared, not looked up.
fn fault_by(number: u8) -> Fault
    ensures { result ≡ fault_of number }
{
    match number {
        0 => Fault::TooLong,
        1 => Fault::TooLong,
        2 => Fault::Truncated,
        3 => Fault::UnusedHead,
        4 => Fault::LongFloat,
        5 => Fault::TooManyItems,
        6 => Fault::TooDeep,
        7 => Fault::Misplaced,
        8 => Fault::WrongVersion,
        9 => Fault::StringCut,
        10 => Fault::Misspelt,
        11 => Fault::KeyOrder,
        12 => Fault::NoParameters,
        13 => Fault::BytesBehind,
        14 => Fault::NoText,
        15 => Fault::NoAri,
        16 => Fault::NoRoom,
        17 => Fault::NoSuchNumber,
        18 => Fault::Clash,
        19 => Fault::BadLine,
        20 => Fault::BadTrailer,
        21 => Fault::BadOffset,
        22 => Fault::BadMessage,
        23 => Fault::DayFull,
        24 => Fault::BadText,
        25 => Fault::MonthFull,
        26 => Fault::TotalTooLarge,
        27 => Fault::NoSuchTarget,
        _ => Fault::NoSuchTarget,
    }
}

// The refusal of a number that the rules have.
pub fn refusal_by(number: u8, place: usize) -> Refusal
    ensures { result ≡ refusal_of number place }
{
    Refusal {
        fault: fault_by(number),
        place,
    }
}

// Which target of an EXECSET or report of an RPTSET an item lies in: none, or its number, targets and reports counted together from 0 through
// the whole input.
#[derive(Clone, Copy)]
pub enum Target {
    None,
    Number(u64),
}

// The gate's own limits. No other place has these numbers.
pub const BYTES: usize = 16384;

pub const ITEMS: usize = 4096;

pub const CONTAINERS: usize = 24;

pub const TEXT: usize = 131072;

pub const LIMITS: Limits = Limits {
    bytes: BYTES,
    items: ITEMS,
    containers: CONTAINERS,
    text: TEXT,
};

// Those of before, which messages in day files of version 1 keep.
pub const FIRST_LIMITS: Limits = Limits {
    bytes: 4096,
    items: 1024,
    containers: 12,
    text: 32768,
};

// Limits that a caller gives, none above the gate's own: what functions lend is sized by those.
pub fn cap(limits: Limits) -> Limits
    ensures value { result ≡ capped limits }
    ensures bytes_le_bytes { (result.bytes ≤ gate_limits.bytes) × (result.items ≤ gate_limits.items) × (result.containers ≤ gate_limits.containers) × (result.text ≤ gate_limits.text) }
{
    Limits {
        bytes: buffer::least(limits.bytes, BYTES),
        items: buffer::least(limits.items, ITEMS),
        containers: buffer::least(limits.containers, CONTAINERS),
        text: buffer::least(limits.text, TEXT),
    }
}
