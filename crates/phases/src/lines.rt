// Lines of the other sides: an SMTP server's replies, a POP3 server's status lines, an IMAP client's commands and what surrounds its literals.
ghost use Rattle.std.specs.Prelude.{List, ℕ, ◌+◌, ◌≤◌, length};
ghost use Rattle.events.specs.Events.{kind_number};
ghost use Rattle.rules.specs.Phases as phase;
ghost use Rattle.phases.specs.Phasing.{TurnOf, HeadIs, Slots, Lists, Said};

use crate::header::head;
use crate::strict::Window;
use crate::turns::{over, unheard};
use crate::{Phase, Spot, Turn};
use events::{Encoding, Kind, Log, Outcome};
use fields::imap::{append, append_size, has_colon};
use fields::pop3::{retr_answer, stls_answer};
use reads::{Two, note};
use rules::Mail;

// Up to a line that begins 221.
pub fn replies(w: Window, at: usize, table: &mut [u32], log: Log) -> Turn
    requires { at ≤ length w.bytes.now }
    ensures { (k : List ℕ) → TurnOf w.entry.settings w.entry.bytes.now w.entry.base at k table.old log Phase.Reply result table.new }
{
    list(
        w,
        at,
        Phase::Reply,
        Kind::ServerLine,
        behind_reply,
        table,
        log,
    )
}

// Up to a TLS answer or a retrieval.
pub fn statuses(w: Window, at: usize, table: &mut [u32], log: Log) -> Turn
    requires { at ≤ length w.bytes.now }
    ensures { (k : List ℕ) → TurnOf w.entry.settings w.entry.bytes.now w.entry.base at k table.old log Phase.Status result table.new }
{
    list(
        w,
        at,
        Phase::Status,
        Kind::ServerLine,
        behind_status,
        table,
        log,
    )
}

// Up to an append.
pub fn commands(w: Window, at: usize, table: &mut [u32], log: Log) -> Turn
    requires { at ≤ length w.bytes.now }
    ensures { (k : List ℕ) → TurnOf w.entry.settings w.entry.bytes.now w.entry.base at k table.old log Phase.Command result table.new }
{
    list(
        w,
        at,
        Phase::Command,
        Kind::ClientLine,
        behind_command,
        table,
        log,
    )
}

// Clean lines, each of them listed, up to one behind which another phase follows: `behind` takes the clean line, and the session's place where the line ends.
fn list<F: Fn(&[u8], usize) -> Option<Phase>>(
    w: Window,
    at: usize,
    phase: Phase,
    kind: Kind,
    behind: F,
    table: &mut [u32],
    mut log: Log,
) -> Turn
    requires { (at ≤ length w.bytes.now) × F.IsAlwaysCallable behind }
    ensures { (so : _) → Lists phase (kind_number kind) so → ((l : _) (to : ℕ) (r : _) → F.post behind l to r → Said (kind_number kind) so l.now to r)
        → (k : List ℕ) → TurnOf w.entry.settings w.entry.bytes.now w.entry.base at k table.old log phase result table.new }
{
    let mut p = at;
    loop {
        let line = w.clean_line(p, phase, log)?;
        match note(
            table,
            log,
            kind,
            w.base + p,
            line.clean - p,
            Encoding::Unsaid,
        ) {
            Err(a) => return Ok(over(a, line.end)),
            Ok(next) => {
                if let Some(phase) = behind(&w.bytes[p..line.clean], w.base + line.end) {
                    return Ok(Spot {
                        phase,
                        taken: line.end,
                        log: next,
                    });
                }
                p = line.end;
                log = next;
            }
        }
    }
}

#[tactic(auto, using(crate::proofs::Reactions::reply_last, crate::proofs::Reactions::reply_on))]
fn behind_reply(l: &[u8], to: usize) -> Option<Phase>
    ensures { Said (kind_number Kind.ServerLine) phase.reply l.now to result }
{
    if reading::starts_with(l, b"221") {
        return Some(Phase::Over(Outcome::Done, to));
    }
    None
}

#[tactic(auto, using(crate::proofs::Reactions::status_tls, crate::proofs::Reactions::status_mail, crate::proofs::Reactions::status_on))]
fn behind_status(l: &[u8], to: usize) -> Option<Phase>
    ensures { Said (kind_number Kind.ServerLine) phase.status l.now to result }
{
    if stls_answer(l) {
        return Some(Phase::Over(Outcome::Done, to));
    }
    if retr_answer(l) {
        return Some(Phase::Head(Mail::Pop3, unheard(), 0));
    }
    None
}

#[tactic(auto, using(crate::proofs::Reactions::command_append, crate::proofs::Reactions::command_on))]
fn behind_command(l: &[u8], to: usize) -> Option<Phase>
    ensures { Said (kind_number Kind.ClientLine) phase.command l.now to result }
{
    if append(l) {
        return Some(Phase::Offered(append_size(l)));
    }
    None
}

// Behind an append: a mail of so many bytes if the line, only peeked at, holds a colon; else a command.
pub fn offered(w: Window, p: usize, size: u64, kept: &mut [u8], table: &mut [u32], log: Log) -> Turn
    requires { (p ≤ length w.bytes.now) × Slots kept.old }
    ensures { HeadIs w.entry.settings w.entry.bytes.now w.entry.base p kept.old table.old log (Phase.Offered size) result kept.new table.new }
{
    let Ok(e) = reads::line(w.bytes, p) else {
        return Err(Spot {
            phase: Phase::Offered(size),
            taken: p,
            log,
        });
    };
    if has_colon(&w.bytes[p..e]) {
        let mail = Mail::Imap(size, w.base + p);
        return head(w, p, mail, unheard(), 0, kept, table, log);
    }
    commands(w, p, table, log)
}

// The two bytes behind a literal.
pub fn closing(w: Window, p: usize, log: Log) -> Turn
    requires { p ≤ length w.bytes.now }
    ensures { (set : _) (k t : List ℕ) → TurnOf set w.entry.bytes.now w.entry.base p k t log Phase.Closing result t }
{
    let phase = match w.two_bytes(p, Phase::Closing, log)? {
        Two::Crlf => Phase::Command,
        Two::Hyphens | Two::Other => Phase::Over(Outcome::OpenLiteral, w.base + p),
    };
    Ok(Spot {
        phase,
        taken: p + 2,
        log,
    })
}
