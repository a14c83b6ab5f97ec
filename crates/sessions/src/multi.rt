// Multiparts: parts inside parts, eight levels deep. Ports `multi_body`, `preamble`, `mime_body` and `epilogue` of common.rs and imap.rs.
ghost use Rattle.std.specs.Prelude.{◌≤◌, length};
ghost use Rattle.reads.specs.Clauses.{Begins};
ghost use Rattle.sessions.specs.Walks.{Lies, Stands, MultiBodyIs, PartIs, PreambleIs, ContentIs, MimeBodyIs, EpilogueIs};

use crate::buffer::Buffer;
use crate::header::{Headed, header};
use crate::walks::{Reached, Walk};
use events::{Encoding, Kind, Outcome};
use reading::Span;
use reads::{Stop, Two, hold, last_line, literal_rest};
use rules::Mail;

// A level of a mail's parts: its boundary, the outermost level's, and how many levels are left below it.
#[derive(Clone, Copy)]
pub struct Level {
    pub mail: Mail,
    pub bdry: Span,
    pub outer: Span,
    pub left: usize,
}

// Behind a part: another follows, or the multipart was closed.
#[derive(Clone, Copy)]
pub enum Parted {
    Next(Reached),
    Closed(Reached),
}

#[cycle(multi_body_part)]
pub fn multi_body(s: Buffer, from: Reached, level: Level, table: &mut [u32]) -> Walk
    requires { Stands s.bytes.now from.at level }
    ensures { MultiBodyIs s.entry.bytes.now table.old from.log from.at level result table.new }
{
    let mut here = preamble(s, from, level.bdry)?;
    loop {
        match part(s, here, level, table)? {
            Parted::Next(to) => here = to,
            Parted::Closed(to) => return epilogue(s, to, level.outer, level.mail),
        }
    }
}

#[cycle(multi_body_part)]
fn part(s: Buffer, from: Reached, level: Level, table: &mut [u32]) -> Result<Parted, Stop>
    requires { Stands s.bytes.now from.at level }
    ensures { PartIs s.entry.bytes.now table.old from.log from.at level result table.new }
{
    let Headed { known, to } = header(s, from, table)?;
    match known.boundary {
        None => content(s, to, level.bdry, known.encoding, table),
        Some(bdry) => {
            if level.left == 0 {
                return Err(to.stop(Outcome::TooDeep));
            }
            let inner = Level {
                bdry,
                left: level.left - 1,
                ..level
            };
            let next = multi_body(s, to, inner, table)?;
            Ok(Parted::Next(next))
        }
    }
}

fn preamble(s: Buffer, from: Reached, b: Span) -> Walk
    requires { (from.at ≤ length s.bytes.now) × Lies s.bytes.now b }
    ensures { PreambleIs s.entry.bytes.now from.log from.at b result }
{
    let end = s.delimited(from, b)?;
    let here = Reached { at: end, ..from };
    match s.two_bytes(here)? {
        Two::Crlf => Ok(Reached {
            at: end + 2,
            ..from
        }),
        Two::Hyphens | Two::Other => Err(here.stop(Outcome::BadDelimiter)),
    }
}

// A part's content, and what the two bytes behind it say.
fn content(
    s: Buffer,
    from: Reached,
    b: Span,
    encoding: Encoding,
    table: &mut [u32],
) -> Result<Parted, Stop>
    requires { (from.at ≤ length s.bytes.now) × Lies s.bytes.now b }
    ensures { ContentIs s.entry.bytes.now table.old from.log from.at b encoding result table.new }
{
    let here = mime_body(s, from, b, encoding, table)?;
    let behind = s.two_bytes(here)?;
    let to = Reached {
        at: here.at + 2,
        ..here
    };
    match behind {
        Two::Crlf => Ok(Parted::Next(to)),
        Two::Hyphens => Ok(Parted::Closed(to)),
        Two::Other => Err(here.stop(Outcome::BadDelimiter)),
    }
}

fn mime_body(s: Buffer, from: Reached, b: Span, encoding: Encoding, table: &mut [u32]) -> Walk
    requires { (from.at ≤ length s.bytes.now) × Lies s.bytes.now b }
    ensures { MimeBodyIs s.entry.bytes.now table.old from.log from.at b encoding result table.new }
{
    let log = from.note(table, Kind::BodyStart, 0, Encoding::Unsaid)?;
    let end = s.delimited(Reached { log, ..from }, b)?;
    let size = (end - from.at).saturating_sub(b.len + 4);
    let log = hold(table, log, Kind::PartBody, from.at, size, encoding)?;
    Ok(Reached { at: end, log })
}

// Lines behind a close, up to one that ends the skipping; of a literal that has less left than the outermost boundary is long, just the rest.
fn epilogue(s: Buffer, from: Reached, outer: Span, mail: Mail) -> Walk
    requires { (from.at ≤ length s.bytes.now) × Begins mail from.at × Lies s.bytes.now outer }
    ensures { EpilogueIs s.entry.bytes.now from.log from.at outer mail result }
{
    let mut here = from;
    loop {
        let rest = literal_rest(mail, here.at);
        if 0 < rest && rest < outer.len as u64 {
            let end = s.sized(here, rest)?;
            return Ok(Reached { at: end, ..here });
        }
        let end = s.line(here)?;
        let to = Reached { at: end, ..here };
        if last_line(&s.bytes[here.at..end], outer.of(s.bytes), mail) {
            return Ok(to);
        }
        here = to;
    }
}
