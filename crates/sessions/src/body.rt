// Bodies with no boundary: lines up to a dot line, or what a literal has left. Ports `body` of common.rs and `size_body` of imap.rs.
ghost use Rattle.std.specs.Prelude.{[], ◌≤◌, length};
ghost use Rattle.reads.specs.Clauses.{Begins};
ghost use Rattle.rules.specs.Mail.{after_mail, starts, plain_mail, literal_body};
ghost use Rattle.rules.specs.Phases.{reads, text, closing, then};
ghost use Rattle.rules.specs.declared.Mail.{Mail};
ghost use Rattle.sessions.specs.Walks.{Walks};

use crate::buffer::Buffer;
use crate::walks::{Reached, Walk};
use events::{Encoding, Kind, Outcome};
use reads::hold;
use rules::Mail;

// A mail with no boundary: lines up to the dot line, or what the literal has left.
pub fn plain_mail(
    s: Buffer,
    from: Reached,
    mail: Mail,
    encoding: Encoding,
    table: &mut [u32],
) -> Walk
    requires { (from.at ≤ length s.bytes.now) × Begins mail from.at }
    ensures { Walks s.entry.bytes.now table.old from.log from.at (plain_mail mail encoding from.at) (after_mail mail) result table.new }
{
    match mail {
        Mail::Smtp | Mail::Pop3 => body(s, from, encoding, table),
        Mail::Imap(size, start) => {
            let head = (from.at - start) as u64;
            let Some(left) = size.checked_sub(head) else {
                return Err(from.stop(Outcome::SmallLiteral));
            };
            size_body(s, from, left, encoding, table)
        }
    }
}

// The start of a body, then lines up to the dot line.
fn body(s: Buffer, from: Reached, encoding: Encoding, table: &mut [u32]) -> Walk
    requires { from.at ≤ length s.bytes.now }
    ensures { (m : Mail) → Walks s.entry.bytes.now table.old from.log from.at (starts from.at (text m encoding)) (after_mail m) result table.new }
{
    let log = from.note(table, Kind::BodyStart, 0, Encoding::Unsaid)?;
    body_lines(s, Reached { log, ..from }, encoding, table)
}

fn body_lines(s: Buffer, from: Reached, encoding: Encoding, table: &mut [u32]) -> Walk
    requires { from.at ≤ length s.bytes.now }
    ensures { (m : Mail) → Walks s.entry.bytes.now table.old from.log from.at (then [] (text m encoding)) (after_mail m) result table.new }
{
    let mut here = from;
    loop {
        let end = s.line(here)?;
        if reading::equals(&s.bytes[here.at..end], b".\r\n") {
            let log = here.note(table, Kind::BodyStop, 0, Encoding::Unsaid)?;
            return Ok(Reached { at: end, log });
        }
        let log = here.note(table, Kind::BodyLine, end - here.at, encoding)?;
        here = Reached { at: end, log };
    }
}

// The start of a body, then so many bytes.
fn size_body(s: Buffer, from: Reached, size: u64, encoding: Encoding, table: &mut [u32]) -> Walk
    requires { from.at ≤ length s.bytes.now }
    ensures { Walks s.entry.bytes.now table.old from.log from.at (literal_body encoding from.at size) (λ p. reads closing) result table.new }
{
    let log = from.note(table, Kind::BodyStart, 0, Encoding::Unsaid)?;
    let here = Reached { log, ..from };
    if size == 0 {
        let log = here.note(table, Kind::BodyStop, 0, Encoding::Unsaid)?;
        return Ok(Reached { log, ..here });
    }
    let end = s.sized(here, size)?;
    let log = hold(
        table,
        log,
        Kind::SizedBody,
        from.at,
        end - from.at,
        encoding,
    )?;
    Ok(Reached { at: end, log })
}
