// IMAP sessions, the client's side. Ports `c2s_parser_inner`, `append_ok` and `append_mail` of imap.rs.
ghost use Rattle.std.specs.Prelude.{[], ◌≤◌, length};
ghost use Rattle.rules.specs.Phases.{reads, command, offered, head, then};
ghost use Rattle.fields.specs.Common.{unknown};
ghost use Rattle.rules.specs.declared.Mail.TheVariants.{Imap};
ghost use Rattle.sessions.specs.Walks.{Walks, Turns};

use crate::buffer::Buffer;
use crate::header::read_mail;
use crate::walks::{Reached, Walk};
use events::{Kind, Outcome};
use fields::imap::{append, append_size, has_colon};
use reads::Two;
use rules::Mail;

// A command line, and the mail that an append may bring.
#[tactic(auto, using(crate::proofs::StatusTurns::command_stop, crate::proofs::StatusTurns::command_on))]
pub fn command(s: Buffer, from: Reached, table: &mut [u32]) -> Walk
    requires { from.at ≤ length s.bytes.now }
    ensures { Turns s.entry.bytes.now table.old from.log from.at command result table.new }
{
    let l = s.note_line(from, Kind::ClientLine, table)?;
    let said = &s.bytes[from.at..l.clean];
    if append(said) {
        return append_ok(s, l.to, append_size(said), table);
    }
    Ok(l.to)
}

// A mail follows if the next line, only peeked at, holds a colon.
fn append_ok(s: Buffer, from: Reached, size: u64, table: &mut [u32]) -> Walk
    requires { from.at ≤ length s.bytes.now }
    ensures { Walks s.entry.bytes.now table.old from.log from.at (then [] (offered size)) (λ p. reads command) result table.new }
{
    let end = s.line(from)?;
    if has_colon(&s.bytes[from.at..end]) {
        return append_mail(s, from, size, table);
    }
    Ok(from)
}

// A mail of so many bytes, and CRLF.
fn append_mail(s: Buffer, from: Reached, size: u64, table: &mut [u32]) -> Walk
    requires { from.at ≤ length s.bytes.now }
    ensures { Walks s.entry.bytes.now table.old from.log from.at (then [] (head (Imap size from.at) unknown [])) (λ p. reads command) result table.new }
{
    let end = read_mail(s, from, Mail::Imap(size, from.at), table)?;
    match s.two_bytes(end)? {
        Two::Crlf => Ok(Reached {
            at: end.at + 2,
            ..end
        }),
        Two::Hyphens | Two::Other => Err(end.stop(Outcome::OpenLiteral)),
    }
}
