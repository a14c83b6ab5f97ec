// A session's record as numbers, for callers that know no enum: there and back.
#![tactic(auto)]

ghost use Rattle.std.specs.Prelude.{◌≡◌, false};
ghost use Rattle.flat.specs.Flats.{flat, plain, flat_of, numbers_of, row, row_by, mail_of, encoding_of, outcome_of, fields_of, heard_of, phase_by, phase_of, settings_of};

use events::{Encoding, Log, Outcome};
use phases::{Heard, Phase};
use rules::{Mail, Settings};

// A phase by its number, with all that a phase can hold; what it does not hold is 0.
#[derive(Clone, Copy)]
pub struct Flat {
    pub tag: u64,
    pub mail: Mail,
    pub encoding: Encoding,
    pub level: usize,
    pub from: usize,
    pub left: u64,
    pub here: bool,
    pub supplied: bool,
    pub result: Outcome,
}

// ---- there

pub fn numbers_of(settings: Settings, phase: Phase, at: usize, log: Log) -> [u64; 24]
    ensures { result ≡ numbers_of settings phase at log }
{
    row(settings, Flat::from(phase), at, log)
}

impl From<Phase> for Flat {
    fn from(phase: Phase) -> Self
        ensures { result ≡ flat_of phase }
    {
        match phase {
            Phase::Hello => plain(1, 0),
            Phase::Second => plain(2, 0),
            Phase::User => plain(3, 0),
            Phase::Password => plain(4, 0),
            Phase::Sender => plain(5, 0),
            Phase::Seeking => plain(6, 0),
            Phase::Recipient => plain(7, 0),
            Phase::Reply => plain(8, 0),
            Phase::Status => plain(9, 0),
            Phase::Command => plain(10, 0),
            Phase::Offered(size) => plain(11, size),
            Phase::Closing => plain(12, 0),
            Phase::Head(mail, heard, level) => in_head(mail, heard, level),
            Phase::Text(mail, encoding) => in_body(14, mail, encoding, 0, 0, false),
            Phase::Literal(encoding, from, left) => in_literal(encoding, from, left),
            Phase::Preamble(mail, level, from, here) => {
                in_body(16, mail, Encoding::Unsaid, level, from, here)
            }
            Phase::Opened(mail, level) => in_parts(17, mail, level, 0),
            Phase::Content(mail, encoding, level, from, here) => {
                in_body(18, mail, encoding, level, from, here)
            }
            Phase::Between(mail, level) => in_parts(19, mail, level, 0),
            Phase::Skipping(mail, level) => in_parts(20, mail, level, 0),
            Phase::Resting(mail, level, left) => in_parts(21, mail, level, left),
            Phase::Over(result, place) => ended(result, place),
        }
    }
}

fn plain(tag: u64, left: u64) -> Flat
    ensures { result ≡ plain tag left }
{
    Flat {
        tag,
        mail: Mail::Smtp,
        encoding: Encoding::Unsaid,
        level: 0,
        from: 0,
        left,
        here: false,
        supplied: false,
        result: Outcome::Done,
    }
}

fn in_head(mail: Mail, heard: Heard, level: usize) -> Flat
    ensures { result ≡ flat 13 mail heard.encoding level 0 0 heard.seen heard.supplied Outcome.Done }
{
    Flat {
        mail,
        encoding: heard.encoding,
        level,
        here: heard.seen,
        supplied: heard.supplied,
        ..plain(13, 0)
    }
}

fn in_body(tag: u64, mail: Mail, encoding: Encoding, level: usize, from: usize, here: bool) -> Flat
    ensures { result ≡ flat tag mail encoding level from 0 here false Outcome.Done }
{
    Flat {
        mail,
        encoding,
        level,
        from,
        here,
        ..plain(tag, 0)
    }
}

fn in_literal(encoding: Encoding, from: usize, left: u64) -> Flat
    ensures { result ≡ flat 15 Mail.Smtp encoding 0 from left false false Outcome.Done }
{
    Flat {
        encoding,
        from,
        ..plain(15, left)
    }
}

fn in_parts(tag: u64, mail: Mail, level: usize, left: u64) -> Flat
    ensures { result ≡ flat tag mail Encoding.Unsaid level 0 left false false Outcome.Done }
{
    Flat {
        mail,
        level,
        ..plain(tag, left)
    }
}

fn ended(res: Outcome, place: usize) -> Flat
    ensures { result ≡ flat 22 Mail.Smtp Encoding.Unsaid 0 place 0 false false res }
{
    Flat {
        from: place,
        result: res,
        ..plain(22, 0)
    }
}

fn row(settings: Settings, f: Flat, at: usize, log: Log) -> [u64; 24]
    ensures { result ≡ row settings f at log }
{
    match f.mail {
        Mail::Smtp => row_by(settings, f, 0, 0, 0, at, log),
        Mail::Pop3 => row_by(settings, f, 1, 0, 0, at, log),
        Mail::Imap(size, start) => row_by(settings, f, 2, size, start, at, log),
    }
}

fn row_by(
    settings: Settings,
    f: Flat,
    kind: u64,
    size: u64,
    start: usize,
    at: usize,
    log: Log,
) -> [u64; 24]
    ensures { result ≡ row_by settings f kind size start at log }
{
    [
        f.tag,
        at as u64,
        log.count as u64,
        kind,
        size,
        start as u64,
        u64::from(events::encoding_number(f.encoding)),
        f.level as u64,
        f.from as u64,
        f.left,
        u64::from(f.here),
        u64::from(f.supplied),
        u64::from(events::result_number(f.result)),
        u64::from(settings.strict),
        0,
        0,
        0,
        0,
        0,
        0,
        0,
        0,
        0,
        0,
    ]
}

// ---- and back: any numbers are some phase's

pub fn phase_of(numbers: &[u64; 24]) -> Phase
    ensures { result ≡ phase_of numbers.now }
{
    Phase::from(fields_of(numbers))
}

pub fn settings_of(numbers: &[u64; 24]) -> Settings
    ensures { result ≡ settings_of numbers.now }
{
    Settings {
        strict: numbers[13] != 0,
    }
}

fn fields_of(numbers: &[u64; 24]) -> Flat
    ensures { result ≡ fields_of numbers.now }
{
    Flat {
        tag: numbers[0],
        mail: mail_of(numbers[3], numbers[4], numbers[5] as usize),
        encoding: encoding_of(numbers[6]),
        level: numbers[7] as usize,
        from: numbers[8] as usize,
        left: numbers[9],
        here: numbers[10] != 0,
        supplied: numbers[11] != 0,
        result: outcome_of(numbers[12]),
    }
}

#[tactic(auto, unfolding(crate::specs::Flats::mail_of))]
fn mail_of(kind: u64, size: u64, start: usize) -> Mail
    ensures { result ≡ mail_of kind size start }
{
    match kind {
        1 => Mail::Pop3,
        2 => Mail::Imap(size, start),
        _ => Mail::Smtp,
    }
}

#[tactic(auto, unfolding(crate::specs::Flats::encoding_of))]
fn encoding_of(n: u64) -> Encoding
    ensures { result ≡ encoding_of n }
{
    match n {
        1 => Encoding::Bit7,
        2 => Encoding::Bit8,
        3 => Encoding::Binary,
        4 => Encoding::QuotedPrintable,
        5 => Encoding::Base64,
        6 => Encoding::Unrecognised,
        _ => Encoding::Unsaid,
    }
}

#[tactic(auto, unfolding(crate::specs::Flats::outcome_of))]
fn outcome_of(n: u64) -> Outcome
    ensures { result ≡ outcome_of n }
{
    match n {
        0 => Outcome::Done,
        1 => Outcome::Incomplete,
        2 => Outcome::TooLong,
        3 => Outcome::NoHello,
        4 => Outcome::StartTls,
        5 => Outcome::NoRecipient,
        6 => Outcome::BadDelimiter,
        7 => Outcome::SmallLiteral,
        8 => Outcome::OpenLiteral,
        9 => Outcome::TooDeep,
        10 => Outcome::TableFull,
        11 => Outcome::BareLf,
        12 => Outcome::LongBoundary,
        _ => Outcome::NoSession,
    }
}

// What no phase has as its number is a session that is over because it was none.
impl From<Flat> for Phase {
    #[tactic(auto, unfolding(crate::specs::Flats::phase_by))]
    fn from(f: Flat) -> Self
        ensures { result ≡ phase_by f }
    {
        match f.tag {
            1 => Phase::Hello,
            2 => Phase::Second,
            3 => Phase::User,
            4 => Phase::Password,
            5 => Phase::Sender,
            6 => Phase::Seeking,
            7 => Phase::Recipient,
            8 => Phase::Reply,
            9 => Phase::Status,
            10 => Phase::Command,
            11 => Phase::Offered(f.left),
            12 => Phase::Closing,
            13 => Phase::Head(f.mail, heard_of(f.encoding, f.here, f.supplied), f.level),
            14 => Phase::Text(f.mail, f.encoding),
            15 => Phase::Literal(f.encoding, f.from, f.left),
            16 => Phase::Preamble(f.mail, f.level, f.from, f.here),
            17 => Phase::Opened(f.mail, f.level),
            18 => Phase::Content(f.mail, f.encoding, f.level, f.from, f.here),
            19 => Phase::Between(f.mail, f.level),
            20 => Phase::Skipping(f.mail, f.level),
            21 => Phase::Resting(f.mail, f.level, f.left),
            22 => Phase::Over(f.result, f.from),
            _ => Phase::Over(Outcome::NoSession, 0),
        }
    }
}

fn heard_of(encoding: Encoding, seen: bool, supplied: bool) -> Heard
    ensures { result ≡ heard_of encoding seen supplied }
{
    Heard {
        encoding,
        seen,
        supplied,
    }
}
