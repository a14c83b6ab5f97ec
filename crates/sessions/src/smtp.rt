// SMTP sessions, both directions. Ports `c2s_parser_inner` and `s2c_parser_inner` of smtp.rs.
ghost use Rattle.std.specs.Prelude.{◌≡◌, List, [], ℕ, ◌≤◌, length};
ghost use Rattle.fields.specs.Common.{part};
ghost use Rattle.fields.specs.Smtp.{rcpt_to};
ghost use Rattle.rules.specs.Phases.{reads, hello, second, user, sender, seeking, recipient, reply, head, then};
ghost use Rattle.rules.specs.Sessions.{session, settle};
ghost use Rattle.rules.specs.Smtp.{tried, by_recipient};
ghost use Rattle.rules.specs.Mail.{after_mail};
ghost use Rattle.events.specs.Table.{no_events};
ghost use Rattle.reads.specs.Clauses.{final_at};
ghost use Rattle.sessions.specs.Walks.{Walks, Turns};
ghost use Rattle.fields.specs.Common.{unknown};
ghost use Rattle.rules.specs.declared.Mail.TheVariants.{Smtp};

use crate::buffer::Buffer;
use crate::header::read_mail;
use crate::walks::{Reached, START, Walk};
use events::{Encoding, Kind, Outcome};
use fields::smtp::{
    Second, is_data, is_mail_from, mail_from, rcpt_to, second_line, starts_with_helo,
};
use reads::{CleanLine, Stop};
use rules::Mail;

pub fn client(s: Buffer, table: &mut [u32]) -> Stop
    ensures { final_at table.new result ≡ settle table.old no_events (session (reads hello) 0 s.entry.bytes.now) }
{
    match one_mail(s, table) {
        Ok(end) => end.stop(Outcome::Done),
        Err(a) => a,
    }
}

// An envelope, and its mail.
fn one_mail(s: Buffer, table: &mut [u32]) -> Walk
    ensures { Walks s.entry.bytes.now table.old no_events 0 (then [] hello) (after_mail Smtp) result table.new }
{
    let second = hello(s)?;
    let first = envelope(s, second, table)?;
    let head = multi_rcpt_to(s, first, table)?;
    read_mail(s, head, Mail::Smtp, table)
}

// The first line: HELO or EHLO.
fn hello(s: Buffer) -> Walk
    ensures { (t : List ℕ) → Walks s.entry.bytes.now t no_events 0 (then [] hello) (λ p. reads second) result t }
{
    let end = s.line(START)?;
    if starts_with_helo(&s.bytes[..end]) {
        return Ok(Reached { at: end, ..START });
    }
    Err(START.stop(Outcome::NoHello))
}

// From the second line up to the one that is tried as sender.
fn envelope(s: Buffer, from: Reached, table: &mut [u32]) -> Walk
    requires { from.at ≤ length s.bytes.now }
    ensures { Walks s.entry.bytes.now table.old from.log from.at (then [] second) (λ p. reads recipient) result table.new }
{
    let l = s.clean_line(from)?;
    let next = Reached { at: l.end, ..from };
    match second_line(&s.bytes[from.at..l.clean]) {
        Second::StartTls => Err(from.stop(Outcome::StartTls)),
        Second::AuthLogin => login(s, next, table),
        Second::MailFrom => tried(s, from, l, table),
        Second::Other => read_to_from(s, next, table),
    }
}

// The line l at `from`, tried as sender; reading goes on behind it.
#[tactic(auto, using(reads::proofs::Addresses::from_room, crate::proofs::SmtpTurns::tried_none, crate::proofs::SmtpTurns::tried_full, crate::proofs::SmtpTurns::tried_some))]
fn tried(s: Buffer, from: Reached, l: CleanLine, table: &mut [u32]) -> Walk
    requires { (from.at ≤ l.clean) × (l.clean ≤ l.end) × (l.end ≤ length s.bytes.now) }
    ensures { Walks s.entry.bytes.now table.old from.log l.end (tried from.at (part s.entry.bytes.now from.at l.clean)) (λ p. reads recipient) result table.new }
{
    let Some(a) = mail_from(&s.bytes[from.at..l.clean]) else {
        return Ok(Reached { at: l.end, ..from });
    };
    let there = Reached {
        at: from.at + a.at,
        ..from
    };
    let log = there.note(table, Kind::Sender, a.len, Encoding::Unsaid)?;
    Ok(Reached { at: l.end, log })
}

// User line, password line, and one line tried as sender.
fn login(s: Buffer, from: Reached, table: &mut [u32]) -> Walk
    requires { from.at ≤ length s.bytes.now }
    ensures { Walks s.entry.bytes.now table.old from.log from.at (then [] user) (λ p. reads recipient) result table.new }
{
    let user = s.note_line(from, Kind::User, table)?;
    let pass = s.note_line(user.to, Kind::Password, table)?;
    sender(s, pass.to, table)
}

fn sender(s: Buffer, from: Reached, table: &mut [u32]) -> Walk
    requires { from.at ≤ length s.bytes.now }
    ensures { Walks s.entry.bytes.now table.old from.log from.at (then [] sender) (λ p. reads recipient) result table.new }
{
    let l = s.clean_line(from)?;
    tried(s, from, l, table)
}

// Lines up to one that begins MAIL FROM:, and that is tried.
fn read_to_from(s: Buffer, from: Reached, table: &mut [u32]) -> Walk
    requires { from.at ≤ length s.bytes.now }
    ensures { Walks s.entry.bytes.now table.old from.log from.at (then [] seeking) (λ p. reads recipient) result table.new }
{
    let mut here = from;
    loop {
        let l = s.clean_line(here)?;
        if is_mail_from(&s.bytes[here.at..l.clean]) {
            return tried(s, here, l, table);
        }
        here = Reached { at: l.end, ..here };
    }
}

// Recipients, up to DATA.
fn multi_rcpt_to(s: Buffer, from: Reached, table: &mut [u32]) -> Walk
    requires { from.at ≤ length s.bytes.now }
    ensures { Walks s.entry.bytes.now table.old from.log from.at (then [] recipient) (λ p. reads (head Smtp unknown [])) result table.new }
{
    let mut here = from;
    loop {
        let l = s.clean_line(here)?;
        if is_data(&s.bytes[here.at..l.clean]) {
            return Ok(Reached { at: l.end, ..here });
        }
        here = recipient(s, here, l, table)?;
    }
}

// The line l at `from` as a recipient; reading goes on behind it.
#[tactic(auto, using(reads::proofs::Addresses::to_room, crate::proofs::SmtpTurns::recipient_full, crate::proofs::SmtpTurns::recipient_some))]
fn recipient(s: Buffer, from: Reached, l: CleanLine, table: &mut [u32]) -> Walk
    requires { (from.at ≤ l.clean) × (l.clean ≤ l.end) × (l.end ≤ length s.bytes.now) }
    ensures { Walks s.entry.bytes.now table.old from.log l.end (by_recipient from.at (rcpt_to (part s.entry.bytes.now from.at l.clean))) (λ p. reads recipient) result table.new }
{
    let Some(a) = rcpt_to(&s.bytes[from.at..l.clean]) else {
        return Err(from.stop(Outcome::NoRecipient));
    };
    let there = Reached {
        at: from.at + a.at,
        ..from
    };
    let log = there.note(table, Kind::Recipient, a.len, Encoding::Unsaid)?;
    Ok(Reached { at: l.end, log })
}

// A line of a server's session, which 221 ends.
#[tactic(auto, using(crate::proofs::SmtpTurns::reply_stop, crate::proofs::SmtpTurns::reply_on))]
pub fn reply(s: Buffer, from: Reached, table: &mut [u32]) -> Walk
    requires { from.at ≤ length s.bytes.now }
    ensures { Turns s.entry.bytes.now table.old from.log from.at reply result table.new }
{
    let l = s.note_line(from, Kind::ServerLine, table)?;
    if reading::starts_with(&s.bytes[from.at..l.clean], b"221") {
        return Err(l.to.stop(Outcome::Done));
    }
    Ok(l.to)
}
