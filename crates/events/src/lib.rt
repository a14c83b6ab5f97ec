// The event table: a lent run of 32-bit numbers, four for each event, filled from the front. Stands for the Rust's callbacks.
#![tactic(auto)]

ghost use Rattle.std.specs.Prelude.{◌≡◌, ◌≤◌};
ghost use Rattle.events.specs.Events.{encoding_number, ev, kind_number, result_number};
ghost use Rattle.events.specs.Table.{Puts};

pub const WIDTH: usize = 4;

#[derive(Clone, Copy, PartialEq, Eq)]
pub enum Kind {
    HeaderLine = 1,
    BodyStart = 2,
    BodyLine = 3,
    SizedBody = 4,
    PartBody = 5,
    BodyStop = 6,
    ClientLine = 7,
    ServerLine = 8,
    User = 9,
    Password = 10,
    Sender = 11,
    Recipient = 12,
}

#[derive(Clone, Copy, PartialEq, Eq)]
pub enum Encoding {
    Unsaid = 0,
    Bit7 = 1,
    Bit8 = 2,
    Binary = 3,
    QuotedPrintable = 4,
    Base64 = 5,
    Unrecognised = 6,
}

#[derive(Clone, Copy)]
pub struct Event {
    pub kind: u32,
    pub offset: u32,
    pub length: u32,
    pub encoding: u32,
}

// What is known of the events written so far.
#[derive(Clone, Copy)]
pub struct Log {
    pub count: usize,
}

// How a session ended, in the order of document 01's numbers.
#[derive(Clone, Copy, PartialEq, Eq)]
pub enum Outcome {
    Done = 0,
    Incomplete = 1,
    TooLong = 2,
    NoHello = 3,
    StartTls = 4,
    NoRecipient = 5,
    BadDelimiter = 6,
    SmallLiteral = 7,
    OpenLiteral = 8,
    TooDeep = 9,
    TableFull = 10,
    BareLf = 11,
    LongBoundary = 12,
    NoSession = 20,
}

#[derive(Clone, Copy)]
pub struct Answer {
    pub result: Outcome,
    pub place: usize,
    pub count: usize,
}

impl Event {
    // Its places lie inside a buffer within the size limit.
    pub fn new(kind: u32, offset: usize, length: usize, encoding: Encoding) -> Self
        requires { (offset ≤ 16777216) × (length ≤ 16777216) }
        ensures { result ≡ ev kind offset length encoding }
    {
        Self {
            kind,
            offset: offset as u32,
            length: length as u32,
            encoding: encoding_number(encoding),
        }
    }
}

// Document 01's number of a kind.
pub fn kind_number(k: Kind) -> u32
    ensures { result ≡ kind_number k }
{
    k as u32
}

pub fn encoding_number(e: Encoding) -> u32
    ensures { result ≡ encoding_number e }
{
    e as u32
}

// The only function that stores: the event goes to the next slot, if there is one. Four stores: a copied slice is asked whether it overlaps.
#[tactic(auto, using(crate::proofs::Laws::put_written, crate::proofs::Laws::put_full))]
pub fn put(table: &mut [u32], log: Log, e: Event) -> Option<Log>
    ensures { Puts table.old log e result table.new }
{
    let n = log.count;
    if n < table.len() / WIDTH {
        let i = n * WIDTH;
        table[i] = e.kind;
        table[i + 1] = e.offset;
        table[i + 2] = e.length;
        table[i + 3] = e.encoding;
        return Some(Log { count: n + 1 });
    }
    None
}

// Document 01's number of a result.
pub fn result_number(r: Outcome) -> u32
    ensures { result ≡ result_number r }
{
    r as u32
}
