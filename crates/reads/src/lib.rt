// Reads and events: what every walk and every phase is made of. Stands for the readers of `PktStrm` and the callbacks.
#![tactic(auto)]

ghost use Rattle.std.specs.Prelude.{◌≡◌, ◌+◌, ◌-◌, ◌≤◌, ◌<◌, [], ◌∷◌, length};
ghost use Rattle.events.specs.Events.{ev, kind_number};
ghost use Rattle.reading.specs.Reading.{a_line, bytes};
ghost use Rattle.rules.specs.Mail.{whole, rest, last_line};
ghost use Rattle.rules.specs.Sessions.{limit};
ghost use Rattle.reads.specs.Clauses.{Stopped, ReadIs, CleanIs, TwoIs, Notes, Begins};

use events::{Encoding, Event, Kind, Log, Outcome};
use rules::Mail;

// The two bytes behind a delimiter or a literal.
#[derive(Clone, Copy, PartialEq, Eq)]
pub enum Two {
    Crlf,
    Hyphens,
    Other,
}

// A line: where its clean part ends, and where it does.
#[derive(Clone, Copy)]
pub struct CleanLine {
    pub clean: usize,
    pub end: usize,
}

// Where a session stops, and what its writer knows then.
#[derive(Clone, Copy)]
pub struct Stop {
    pub result: Outcome,
    pub place: usize,
    pub log: Log,
}

// ---- reads: the place behind, or how the session stops where the read began

#[tactic(auto, using(crate::proofs::Laws::stops_at))]
pub fn line(s: &[u8], at: usize) -> Result<usize, Outcome>
    requires { at ≤ length s.now }
    ensures { ReadIs a_line s.now at result }
{
    let Some(n) = reading::line_end(&s[at..]) else {
        return Err(Outcome::Incomplete);
    };
    Ok(at + n)
}

pub fn clean_line(s: &[u8], at: usize) -> Result<CleanLine, Outcome>
    requires { at ≤ length s.now }
    ensures { CleanIs s.now at result }
{
    let end = line(s, at)?;
    let clean = at + reading::clean_end(&s[at..end]);
    Ok(CleanLine { clean, end })
}

// So many bytes, one at least.
#[tactic(auto, using(crate::proofs::Laws::sized_stops))]
pub fn sized(s: &[u8], at: usize, n: u64) -> Result<usize, Outcome>
    requires { (at ≤ length s.now) × (0 < n) }
    ensures { ReadIs (bytes (n - 1)) s.now at result }
{
    let left = s.len() - at;
    if n <= left as u64 {
        return Ok(at + n as usize);
    }
    Err(Outcome::Incomplete)
}

#[tactic(auto, using(crate::proofs::Laws::pair_is, crate::proofs::Laws::pair_not))]
pub fn two_bytes(s: &[u8], at: usize) -> Result<Two, Outcome>
    requires { at ≤ length s.now }
    ensures { TwoIs s.now at result }
{
    let end = sized(s, at, 2)?;
    if reading::equals(&s[at..end], b"\r\n") {
        return Ok(Two::Crlf);
    }
    if reading::equals(&s[at..end], b"--") {
        return Ok(Two::Hyphens);
    }
    Ok(Two::Other)
}

// ---- events

pub fn stopped(res: Outcome, place: usize, log: Log) -> Stop
    ensures { Stopped res place log result }
{
    Stop {
        result: res,
        place,
        log,
    }
}

// An event into the table, or refusal 10 at its offset.
pub fn note(
    table: &mut [u32],
    log: Log,
    kind: Kind,
    offset: usize,
    length: usize,
    encoding: Encoding,
) -> Result<Log, Stop>
    requires { (offset ≤ limit) × (length ≤ limit) }
    ensures { Notes table.old log (ev (kind_number kind) offset length encoding ∷ []) result table.new }
{
    let number = events::kind_number(kind);
    let event = Event::new(number, offset, length, encoding);
    events::put(table, log, event).ok_or(stopped(Outcome::TableFull, offset, log))
}

// A body of n bytes from `at` on, and its stop; an empty one is not listed.
#[tactic(auto, using(crate::proofs::Notes::whole_none))]
pub fn hold(
    table: &mut [u32],
    log: Log,
    kind: Kind,
    at: usize,
    n: usize,
    encoding: Encoding,
) -> Result<Log, Stop>
    requires { at + n ≤ limit }
    ensures { Notes table.old log (whole (kind_number kind) encoding at n) result table.new }
{
    if n == 0 {
        return note(table, log, Kind::BodyStop, at, 0, Encoding::Unsaid);
    }
    let log = note(table, log, kind, at, n, encoding)?;
    note(table, log, Kind::BodyStop, at + n, 0, Encoding::Unsaid)
}

// ---- mails

// What is left of the literal at a place: 0 once passed, and where there is none.
#[tactic(auto, unfolding(rules::specs::Mail::rest))]
pub fn literal_rest(mail: Mail, at: usize) -> u64
    requires { Begins mail at }
    ensures { result ≡ rest mail at }
{
    match mail {
        Mail::Smtp | Mail::Pop3 => 0,
        Mail::Imap(size, start) => {
            let read = (at - start) as u64;
            size.saturating_sub(read)
        }
    }
}

// The line l ends the skipping behind a close, b being the outermost boundary.
#[tactic(auto, using(crate::proofs::Laws::last_dash), unfolding(rules::specs::Mail::last_line))]
pub fn last_line(l: &[u8], b: &[u8], mail: Mail) -> bool
    ensures { result ≡ last_line mail b.now l.now }
{
    if fields::common::dash_bdry(l, b) {
        return true;
    }
    match mail {
        Mail::Smtp | Mail::Pop3 => reading::equals(l, b".\r\n"),
        Mail::Imap(_, _) => false,
    }
}
