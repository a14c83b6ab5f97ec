// Bodies with no boundary: lines up to a dot line, or what a literal has left. Ports `body` of common.rs and `size_body` of imap.rs.
ghost use Rattle.std.specs.Prelude.{List, ℕ, ◌+◌, ◌≤◌, length};
ghost use Rattle.phases.specs.Phasing.{TurnOf};

use crate::strict::Window;
use crate::turns::{after_mail, onward, over};
use crate::{Phase, Spot, Turn};
use events::{Encoding, Kind, Log};
use reads::{hold, note};
use rules::Mail;

pub fn text(
    w: Window,
    at: usize,
    mail: Mail,
    encoding: Encoding,
    table: &mut [u32],
    mut log: Log,
) -> Turn
    requires { at ≤ length w.bytes.now }
    ensures { (k : List ℕ) → TurnOf w.entry.settings w.entry.bytes.now w.entry.base at k table.old log (Phase.Text mail encoding) result table.new }
{
    let mut p = at;
    loop {
        let e = w.line(p, Phase::Text(mail, encoding), log)?;
        if reading::equals(&w.bytes[p..e], b".\r\n") {
            let noted = note(table, log, Kind::BodyStop, w.base + p, 0, Encoding::Unsaid);
            return Ok(onward(noted, after_mail(mail, w.base + e), e));
        }
        match note(table, log, Kind::BodyLine, w.base + p, e - p, encoding) {
            Err(a) => return Ok(over(a, e)),
            Ok(next) => {
                p = e;
                log = next;
            }
        }
    }
}

// A literal that began at the session's place `from`, and wants left + 1 bytes: all that are shown are taken.
pub fn literal(
    w: Window,
    p: usize,
    encoding: Encoding,
    from: usize,
    left: u64,
    table: &mut [u32],
    log: Log,
) -> Turn
    requires { (p ≤ length w.bytes.now) × (from ≤ w.base + p) }
    ensures { (set : _) (k : List ℕ) → TurnOf set w.entry.bytes.now w.entry.base p k table.old log (Phase.Literal encoding from left) result table.new }
{
    let shown = (w.bytes.len() - p) as u64;
    if shown <= left {
        return Err(Spot {
            phase: Phase::Literal(encoding, from, left - shown),
            taken: w.bytes.len(),
            log,
        });
    }
    let e = p + left as usize + 1;
    let noted = hold(
        table,
        log,
        Kind::SizedBody,
        from,
        w.base + e - from,
        encoding,
    );
    Ok(onward(noted, Phase::Closing, e))
}
