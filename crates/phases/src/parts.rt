// Multiparts: parts inside parts, eight levels deep. Ports `multi_body`, `preamble`, `mime_body` and `epilogue` of common.rs and imap.rs.
ghost use Rattle.std.specs.Prelude.{◌≡◌, true, List, ℕ, ◌+◌, ◌≤◌, length};
ghost use Rattle.rules.specs.Mail.{rest, skip};
ghost use Rattle.reads.specs.Clauses.{Begins};
ghost use Rattle.phases.specs.Phasing.{TurnOf, SoughtIs, Enters, slot, outside, Slots, short_of};

use crate::copies::boundary;
use crate::strict::Window;
use crate::turns::{onward, popped, unheard};
use crate::{Phase, Spot, Turn};
use events::{Encoding, Kind, Log, Outcome};
use reads::{Two, hold};
use rules::Mail;

// Where no line is finished, and whether a delimiter may stand there.
#[derive(Clone, Copy)]
pub struct Pause {
    pub at: usize,
    pub may: bool,
}

pub fn preamble(
    w: Window,
    p: usize,
    mail: Mail,
    level: usize,
    from: usize,
    here: bool,
    kept: &[u8],
    log: Log,
) -> Turn
    requires { (p ≤ length w.bytes.now) × (level ≤ 7) × (from ≤ w.base + p) × Slots kept.now × Begins mail (w.base + p) }
    ensures { (set : _) (t : List ℕ) → TurnOf set w.entry.bytes.now w.entry.base p kept.now t log (Phase.Preamble mail level from here) result t }
{
    match seek(w.bytes, p, boundary(kept, level), here) {
        Err(q) => Err(Spot {
            phase: Phase::Preamble(mail, level, from, q.may),
            taken: q.at,
            log,
        }),
        Ok(e) => Ok(Spot {
            phase: Phase::Opened(mail, level),
            taken: e,
            log,
        }),
    }
}

// The two bytes behind a preamble's delimiter.
pub fn opened(w: Window, p: usize, mail: Mail, level: usize, log: Log) -> Turn
    requires { (p ≤ length w.bytes.now) × (level ≤ 7) × Begins mail (w.base + p) }
    ensures { (set : _) (k t : List ℕ) → TurnOf set w.entry.bytes.now w.entry.base p k t log (Phase.Opened mail level) result t }
{
    let phase = match w.two_bytes(p, Phase::Opened(mail, level), log)? {
        Two::Crlf => Phase::Head(mail, unheard(), level + 1),
        Two::Hyphens | Two::Other => Phase::Over(Outcome::BadDelimiter, w.base + p),
    };
    Ok(Spot {
        phase,
        taken: p + 2,
        log,
    })
}

pub fn content(
    w: Window,
    p: usize,
    mail: Mail,
    encoding: Encoding,
    level: usize,
    from: usize,
    here: bool,
    kept: &[u8],
    table: &mut [u32],
    log: Log,
) -> Turn
    requires { (p ≤ length w.bytes.now) × (level ≤ 7) × (from ≤ w.base + p) × Slots kept.now × Begins mail (w.base + p) }
    ensures { (set : _) → TurnOf set w.entry.bytes.now w.entry.base p kept.now table.old log
        (Phase.Content mail encoding level from here) result table.new }
{
    let b = boundary(kept, level);
    match seek(w.bytes, p, b, here) {
        Err(q) => Err(Spot {
            phase: Phase::Content(mail, encoding, level, from, q.may),
            taken: q.at,
            log,
        }),
        Ok(e) => {
            let size = (w.base + e - from).saturating_sub(b.len() + 4);
            let noted = hold(table, log, Kind::PartBody, from, size, encoding);
            Ok(onward(noted, Phase::Between(mail, level), e))
        }
    }
}

// The two bytes behind a content's delimiter.
pub fn between(w: Window, p: usize, mail: Mail, level: usize, kept: &[u8], log: Log) -> Turn
    requires { (p ≤ length w.bytes.now) × (level ≤ 7) × Slots kept.now × Begins mail (w.base + p) }
    ensures { (set : _) (t : List ℕ) → TurnOf set w.entry.bytes.now w.entry.base p kept.now t log (Phase.Between mail level) result t }
{
    let phase = match w.two_bytes(p, Phase::Between(mail, level), log)? {
        Two::Crlf => Phase::Head(mail, unheard(), level + 1),
        Two::Hyphens => closed(mail, level, w.base + p + 2, kept),
        Two::Other => Phase::Over(Outcome::BadDelimiter, w.base + p),
    };
    Ok(Spot {
        phase,
        taken: p + 2,
        log,
    })
}

// Behind a close, at the session's place `to`: lines are skipped, or just the literal's rest.
fn closed(mail: Mail, level: usize, to: usize, kept: &[u8]) -> Phase
    requires { (level ≤ 7) × Slots kept.now × Begins mail to }
    ensures { Enters kept.now (skip mail (slot kept.now level) (outside kept.now level) to) to result }
{
    match short_rest(mail, to, boundary(kept, 0).len()) {
        Some(left) => Phase::Resting(mail, level, left),
        None => Phase::Skipping(mail, level),
    }
}

// One byte less than the literal's rest, if there is one and it is below a boundary's length.
fn short_rest(mail: Mail, to: usize, n: usize) -> Option<u64>
    requires { Begins mail to }
    ensures { result ≡ short_of (rest mail to) n }
{
    let rest = reads::literal_rest(mail, to);
    if rest < n as u64 {
        return rest.checked_sub(1);
    }
    None
}

// Lines behind a close, up to one that ends the skipping.
pub fn skipping(w: Window, at: usize, mail: Mail, level: usize, kept: &[u8], log: Log) -> Turn
    requires { (at ≤ length w.bytes.now) × (level ≤ 7) × Slots kept.now × Begins mail (w.base + at) }
    ensures { (t : List ℕ) → TurnOf w.entry.settings w.entry.bytes.now w.entry.base at kept.now t log (Phase.Skipping mail level) result t }
{
    let b = boundary(kept, 0);
    let mut p = at;
    loop {
        let e = w.line(p, Phase::Skipping(mail, level), log)?;
        if reads::last_line(&w.bytes[p..e], b, mail) {
            return Ok(Spot {
                phase: popped(mail, level, w.base + e),
                taken: e,
                log,
            });
        }
        if let Some(left) = short_rest(mail, w.base + e, b.len()) {
            return Ok(Spot {
                phase: Phase::Resting(mail, level, left),
                taken: e,
                log,
            });
        }
        p = e;
    }
}

// Just the literal's rest, left + 1 bytes.
pub fn resting(w: Window, p: usize, mail: Mail, level: usize, left: u64, log: Log) -> Turn
    requires { (p ≤ length w.bytes.now) × (level ≤ 7) × Begins mail (w.base + p) }
    ensures { (set : _) (k t : List ℕ) → TurnOf set w.entry.bytes.now w.entry.base p k t log (Phase.Resting mail level left) result t }
{
    if (w.bytes.len() - p) as u64 <= left {
        return Err(Spot {
            phase: Phase::Resting(mail, level, left),
            taken: p,
            log,
        });
    }
    let e = p + left as usize + 1;
    Ok(Spot {
        phase: popped(mail, level, w.base + e),
        taken: e,
        log,
    })
}

// ---- by lines

// The place behind a delimiter for b, from `at` on; `here` says whether one may stand there. Where one may, it is looked for by blocks.
fn seek(w: &[u8], at: usize, b: &[u8], here: bool) -> Result<usize, Pause>
    requires { at ≤ length w.now }
    ensures { SoughtIs w.now at b.now here result }
{
    let mut p = at;
    let mut may = here;
    while !may {
        let Ok(e) = reads::line(w, p) else {
            return Err(Pause { at: p, may });
        };
        may = reading::ends_with(&w[p..e], b"\r\n");
        p = e;
    }
    search(w, p, b)
}

// A delimiter may stand at p.
#[tactic(auto, using(crate::proofs::Parting::delimiter_ends, crate::proofs::Parting::search_found, crate::proofs::Parting::search_stays, crate::proofs::Parting::search_behind))]
fn search(w: &[u8], p: usize, b: &[u8]) -> Result<usize, Pause>
    requires { p ≤ length w.now }
    ensures { SoughtIs w.now p b.now true result }
{
    if let Some(q) = reading::delimiter(&w[p..], b) {
        return Ok(p + q + 2 + b.len());
    }
    let n = reading::behind_last(&w[p..], b'\n');
    let e = p + n;
    let may = n == 0 || reading::ends_with(&w[p..e], b"\r\n");
    Err(Pause { at: e, may })
}
