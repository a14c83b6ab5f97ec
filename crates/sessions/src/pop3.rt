// POP3 sessions, the server's side. Ports `s2c_parser_inner` of pop3.rs.
ghost use Rattle.std.specs.Prelude.{◌≤◌, length};
ghost use Rattle.rules.specs.Phases.{status};
ghost use Rattle.sessions.specs.Walks.{Turns};

use crate::buffer::Buffer;
use crate::header::read_mail;
use crate::walks::{Reached, Walk};
use events::{Kind, Outcome};
use fields::pop3::{retr_answer, stls_answer};
use rules::Mail;

// A status line, and the mail that it may announce.
#[tactic(auto, using(crate::proofs::StatusTurns::status_stop, crate::proofs::StatusTurns::status_on))]
pub fn status(s: Buffer, from: Reached, table: &mut [u32]) -> Walk
    requires { from.at ≤ length s.bytes.now }
    ensures { Turns s.entry.bytes.now table.old from.log from.at status result table.new }
{
    let l = s.note_line(from, Kind::ServerLine, table)?;
    let said = &s.bytes[from.at..l.clean];
    if stls_answer(said) {
        return Err(l.to.stop(Outcome::Done));
    }
    if retr_answer(said) {
        return read_mail(s, l.to, Mail::Pop3, table);
    }
    Ok(l.to)
}
