// An SMTP client's lines up to DATA. Ports `c2s_parser_inner` of smtp.rs.
ghost use Rattle.std.specs.Prelude.{List, ℕ, ◌+◌, ◌≤◌, length};
ghost use Rattle.events.specs.Events.{kind_number};
ghost use Rattle.fields.specs.Common.{part};
ghost use Rattle.rules.specs.Smtp.{tried};
ghost use Rattle.phases.specs.Phasing.{TurnOf, Follows, Gives, RecipientIs};

use crate::strict::Window;
use crate::turns::{onward, over, unheard};
use crate::{Phase, Spot, Turn};
use events::{Encoding, Kind, Log, Outcome};
use fields::smtp::{
    Second, is_data, is_mail_from, mail_from, rcpt_to, second_line, starts_with_helo,
};
use reads::{Stop, note, stopped};
use rules::Mail;

pub fn hello(w: Window, p: usize, log: Log) -> Turn
    requires { p ≤ length w.bytes.now }
    ensures { (k t : List ℕ) → TurnOf w.entry.settings w.entry.bytes.now w.entry.base p k t log Phase.Hello result t }
{
    let e = w.line(p, Phase::Hello, log)?;
    if starts_with_helo(&w.bytes[p..e]) {
        return Ok(Spot {
            phase: Phase::Second,
            taken: e,
            log,
        });
    }
    Ok(Spot {
        phase: Phase::Over(Outcome::NoHello, 0),
        taken: e,
        log,
    })
}

pub fn second(w: Window, p: usize, table: &mut [u32], log: Log) -> Turn
    requires { p ≤ length w.bytes.now }
    ensures { (k : List ℕ) → TurnOf w.entry.settings w.entry.bytes.now w.entry.base p k table.old log Phase.Second result table.new }
{
    let line = w.clean_line(p, Phase::Second, log)?;
    let phase = match second_line(&w.bytes[p..line.clean]) {
        Second::StartTls => Phase::Over(Outcome::StartTls, w.base + p),
        Second::AuthLogin => Phase::User,
        Second::MailFrom => {
            return Ok(tried(w, p, line.clean, line.end, table, log));
        }
        Second::Other => Phase::Seeking,
    };
    Ok(Spot {
        phase,
        taken: line.end,
        log,
    })
}

// The line from p up to `end`, tried as sender; reading goes on at e.
#[tactic(auto, using(reads::proofs::Addresses::from_room))]
fn tried(w: Window, p: usize, end: usize, e: usize, table: &mut [u32], log: Log) -> Spot
    requires { (p ≤ end) × (end ≤ e) × (e ≤ length w.bytes.now) }
    ensures { Follows w.entry.bytes.now w.entry.base p e (tried (w.entry.base + p) (part w.entry.bytes.now p end)) table.old log result table.new }
{
    match mail_from(&w.bytes[p..end]) {
        None => Spot {
            phase: Phase::Recipient,
            taken: e,
            log,
        },
        Some(a) => {
            let noted = note(
                table,
                log,
                Kind::Sender,
                w.base + p + a.at,
                a.len,
                Encoding::Unsaid,
            );
            onward(noted, Phase::Recipient, e)
        }
    }
}

pub fn user(w: Window, p: usize, table: &mut [u32], log: Log) -> Turn
    requires { p ≤ length w.bytes.now }
    ensures { (k : List ℕ) → TurnOf w.entry.settings w.entry.bytes.now w.entry.base p k table.old log Phase.User result table.new }
{
    given(w, p, Phase::User, Kind::User, Phase::Password, table, log)
}

pub fn password(w: Window, p: usize, table: &mut [u32], log: Log) -> Turn
    requires { p ≤ length w.bytes.now }
    ensures { (k : List ℕ) → TurnOf w.entry.settings w.entry.bytes.now w.entry.base p k table.old log Phase.Password result table.new }
{
    given(
        w,
        p,
        Phase::Password,
        Kind::Password,
        Phase::Sender,
        table,
        log,
    )
}

// A clean line, listed whole; the phase `next` follows.
fn given(
    w: Window,
    p: usize,
    phase: Phase,
    kind: Kind,
    next: Phase,
    table: &mut [u32],
    log: Log,
) -> Turn
    requires { p ≤ length w.bytes.now }
    ensures { (so to : _) → Gives phase (kind_number kind) next so to
        → (k : List ℕ) → TurnOf w.entry.settings w.entry.bytes.now w.entry.base p k table.old log phase result table.new }
{
    let line = w.clean_line(p, phase, log)?;
    let noted = note(
        table,
        log,
        kind,
        w.base + p,
        line.clean - p,
        Encoding::Unsaid,
    );
    Ok(onward(noted, next, line.end))
}

pub fn sender(w: Window, p: usize, table: &mut [u32], log: Log) -> Turn
    requires { p ≤ length w.bytes.now }
    ensures { (k : List ℕ) → TurnOf w.entry.settings w.entry.bytes.now w.entry.base p k table.old log Phase.Sender result table.new }
{
    let line = w.clean_line(p, Phase::Sender, log)?;
    Ok(tried(w, p, line.clean, line.end, table, log))
}

// Lines up to one that begins MAIL FROM:, and that is tried.
pub fn seeking(w: Window, at: usize, table: &mut [u32], log: Log) -> Turn
    requires { at ≤ length w.bytes.now }
    ensures { (k : List ℕ) → TurnOf w.entry.settings w.entry.bytes.now w.entry.base at k table.old log Phase.Seeking result table.new }
{
    let mut p = at;
    loop {
        let line = w.clean_line(p, Phase::Seeking, log)?;
        if is_mail_from(&w.bytes[p..line.clean]) {
            return Ok(tried(w, p, line.clean, line.end, table, log));
        }
        p = line.end;
    }
}

// Recipients, up to DATA.
pub fn recipients(w: Window, at: usize, table: &mut [u32], mut log: Log) -> Turn
    requires { at ≤ length w.bytes.now }
    ensures { (k : List ℕ) → TurnOf w.entry.settings w.entry.bytes.now w.entry.base at k table.old log Phase.Recipient result table.new }
{
    let mut p = at;
    loop {
        let line = w.clean_line(p, Phase::Recipient, log)?;
        if is_data(&w.bytes[p..line.clean]) {
            return Ok(Spot {
                phase: Phase::Head(Mail::Smtp, unheard(), 0),
                taken: line.end,
                log,
            });
        }
        match recipient(w, p, line.clean, table, log) {
            Err(a) => return Ok(over(a, line.end)),
            Ok(next) => {
                p = line.end;
                log = next;
            }
        }
    }
}

// The line from p up to `end` as a recipient.
#[tactic(auto, using(crate::proofs::Reactions::recipient_none, crate::proofs::Reactions::recipient_given, reads::proofs::Addresses::to_room))]
fn recipient(w: Window, p: usize, end: usize, table: &mut [u32], log: Log) -> Result<Log, Stop>
    requires { (p ≤ end) × (end ≤ length w.bytes.now) }
    ensures { RecipientIs w.entry.bytes.now w.entry.base p end table.old log result table.new }
{
    match rcpt_to(&w.bytes[p..end]) {
        None => Err(stopped(Outcome::NoRecipient, w.base + p, log)),
        Some(a) => note(
            table,
            log,
            Kind::Recipient,
            w.base + p + a.at,
            a.len,
            Encoding::Unsaid,
        ),
    }
}
