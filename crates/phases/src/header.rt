// A header's lines, and what is behind its blank line. Ports `header` and `read_mail` of common.rs.
ghost use Rattle.std.specs.Prelude.{List, ℕ, ◌∷◌, [], ◌+◌, ◌≤◌, length};
ghost use Rattle.events.specs.Events.{ev, body_start, body_stop};
ghost use Rattle.rules.specs.Mail.{plain_mail, literal_body};
ghost use Rattle.rules.specs.Sessions.{limit};
ghost use Rattle.reads.specs.Clauses.{Begins, Notes};
ghost use Rattle.phases.specs.Phasing.{HeadIs, Learns, BegunIs, DeeperIs, Slots, behind_of};

use crate::copies::{LONGEST, keep, length_at};
use crate::strict::Window;
use crate::turns::{onward, over};
use crate::{Heard, Phase, Turn};
use events::{Encoding, Kind, Log, Outcome};
use fields::common::Scan;
use reads::{Stop, note};
use rules::Mail;

const LEVELS: usize = 8;

// The phase that follows, and whether its events are written.
#[derive(Clone, Copy)]
pub struct Begun {
    pub phase: Phase,
    pub noted: Result<Log, Stop>,
}

pub fn head(
    w: Window,
    at: usize,
    mail: Mail,
    heard: Heard,
    level: usize,
    kept: &mut [u8],
    table: &mut [u32],
    mut log: Log,
) -> Turn
    requires { (at ≤ length w.bytes.now) × (level ≤ 8) × Slots kept.old × Begins mail (w.base + at) }
    ensures { HeadIs w.entry.settings w.entry.bytes.now w.entry.base at kept.old table.old log (Phase.Head mail heard level) result
        kept.new table.new }
{
    let mut p = at;
    let mut known = heard;
    loop {
        let e = w.line(p, Phase::Head(mail, known, level), log)?;
        match note(
            table,
            log,
            Kind::HeaderLine,
            w.base + p,
            e - p,
            Encoding::Unsaid,
        ) {
            Err(a) => return Ok(over(a, e)),
            Ok(next) => {
                if reading::equals(&w.bytes[p..e], b"\r\n") {
                    let begun = behind(w.base + e, mail, known, level, kept, table, next);
                    return Ok(onward(begun.noted, begun.phase, e));
                }
                known = learn(w.bytes, p, e, known, level, kept);
                p = e;
                log = next;
            }
        }
    }
}

// What the line from p up to e adds. A boundary is copied where a line supplies it.
#[tactic(auto, using(crate::proofs::Heading::heard_had, crate::proofs::Heading::heard_none))]
fn learn(w: &[u8], p: usize, e: usize, heard: Heard, level: usize, kept: &mut [u8]) -> Heard
    requires { (p ≤ e) × (e ≤ length w.now) × (level ≤ 8) × Slots kept.old }
    ensures { Learns w.now p e heard level kept.old result kept.new }
{
    let Heard {
        encoding,
        seen,
        supplied,
    } = heard;
    if supplied {
        return Heard {
            encoding: fields::common::first_encoding(encoding, &w[p..e]),
            ..heard
        };
    }
    let before = Scan {
        encoding,
        seen,
        boundary: None,
    };
    let scan = fields::common::scan_line(w, p, e, before);
    match scan.boundary {
        None => Heard {
            encoding: scan.encoding,
            seen: scan.seen,
            supplied: false,
        },
        Some(b) => {
            keep(kept, level, b.of(w));
            Heard {
                encoding: scan.encoding,
                seen: scan.seen,
                supplied: true,
            }
        }
    }
}

// Behind the blank line, which ends at the session's place `to`.
fn behind(
    to: usize,
    mail: Mail,
    heard: Heard,
    level: usize,
    kept: &[u8],
    table: &mut [u32],
    log: Log,
) -> Begun
    requires { (to ≤ limit) × (level ≤ 8) × Slots kept.now × Begins mail to }
    ensures { BegunIs (behind_of mail heard level kept.now to) to kept.now table.old log result table.new }
{
    if heard.supplied {
        return Begun {
            phase: deeper(to, mail, level, kept),
            noted: Ok(log),
        };
    }
    if level == 0 {
        return plain_mail(to, mail, heard.encoding, table, log);
    }
    Begun {
        phase: Phase::Content(mail, heard.encoding, level - 1, to, true),
        noted: note(table, log, Kind::BodyStart, to, 0, Encoding::Unsaid),
    }
}

// With a boundary a deeper multipart, of which there are eight.
#[tactic(auto, using(crate::proofs::Heading::too_deep, crate::proofs::Heading::too_long, crate::proofs::Heading::deeper_opens))]
fn deeper(to: usize, mail: Mail, level: usize, kept: &[u8]) -> Phase
    requires { (level ≤ 8) × Slots kept.now × Begins mail to }
    ensures { DeeperIs mail kept.now level to result }
{
    if LEVELS <= level {
        return Phase::Over(Outcome::TooDeep, to);
    }
    if LONGEST < length_at(kept, level) {
        return Phase::Over(Outcome::LongBoundary, to);
    }
    Phase::Preamble(mail, level, to, true)
}

// No boundary, in a mail: lines, or what the literal has left.
fn plain_mail(to: usize, mail: Mail, encoding: Encoding, table: &mut [u32], log: Log) -> Begun
    requires { (to ≤ limit) × Begins mail to }
    ensures { (k : List ℕ) → BegunIs (plain_mail mail encoding to) to k table.old log result table.new }
{
    match mail {
        Mail::Smtp | Mail::Pop3 => Begun {
            phase: Phase::Text(mail, encoding),
            noted: note(table, log, Kind::BodyStart, to, 0, Encoding::Unsaid),
        },
        Mail::Imap(size, start) => {
            let read = (to - start) as u64;
            if size < read {
                return Begun {
                    phase: Phase::Over(Outcome::SmallLiteral, to),
                    noted: Ok(log),
                };
            }
            literal_body(to, size - read, encoding, table, log)
        }
    }
}

// So many bytes of a literal behind its header; none is no read at all.
fn literal_body(to: usize, size: u64, encoding: Encoding, table: &mut [u32], log: Log) -> Begun
    requires { to ≤ limit }
    ensures { (k : List ℕ) → BegunIs (literal_body encoding to size) to k table.old log result table.new }
{
    if size == 0 {
        return Begun {
            phase: Phase::Closing,
            noted: empty_body(to, table, log),
        };
    }
    Begun {
        phase: Phase::Literal(encoding, to, size - 1),
        noted: note(table, log, Kind::BodyStart, to, 0, Encoding::Unsaid),
    }
}

fn empty_body(to: usize, table: &mut [u32], log: Log) -> Result<Log, Stop>
    requires { to ≤ limit }
    ensures { Notes table.old log (ev body_start to 0 Encoding.Unsaid ∷ ev body_stop to 0 Encoding.Unsaid ∷ []) result table.new }
{
    let log = note(table, log, Kind::BodyStart, to, 0, Encoding::Unsaid)?;
    note(table, log, Kind::BodyStop, to, 0, Encoding::Unsaid)
}
