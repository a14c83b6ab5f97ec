// A mail: its header, and what follows it. Ports `header` and `read_mail` of common.rs.
ghost use Rattle.std.specs.Prelude.{◌≤◌, [], length};
ghost use Rattle.fields.specs.Common.{unknown};
ghost use Rattle.reads.specs.Clauses.{Begins};
ghost use Rattle.rules.specs.Mail.{after_mail};
ghost use Rattle.rules.specs.Phases.{head, then};
ghost use Rattle.sessions.specs.Walks.{Walks, Headers};

use crate::body::plain_mail;
use crate::buffer::Buffer;
use crate::multi::{Level, multi_body};
use crate::walks::{Reached, Walk};
use events::{Encoding, Kind};
use fields::common::{Scan, scan_line};
use reads::Stop;
use rules::Mail;

// Eight levels, the outermost being one.
const INNER_LEVELS: usize = 7;

// What a header says, and what comes behind it.
#[derive(Clone, Copy)]
pub struct Headed {
    pub known: Scan,
    pub to: Reached,
}

pub fn read_mail(s: Buffer, from: Reached, mail: Mail, table: &mut [u32]) -> Walk
    requires { (from.at ≤ length s.bytes.now) × Begins mail from.at }
    ensures { Walks s.entry.bytes.now table.old from.log from.at (then [] (head mail unknown [])) (after_mail mail) result table.new }
{
    let Headed { known, to } = header(s, from, table)?;
    match known.boundary {
        None => plain_mail(s, to, mail, known.encoding, table),
        Some(b) => {
            let level = Level {
                mail,
                bdry: b,
                outer: b,
                left: INNER_LEVELS,
            };
            multi_body(s, to, level, table)
        }
    }
}

// The lines up to a line of exactly CRLF.
pub fn header(s: Buffer, from: Reached, table: &mut [u32]) -> Result<Headed, Stop>
    requires { from.at ≤ length s.bytes.now }
    ensures { Headers s.entry.bytes.now table.old from.log from.at result table.new }
{
    let mut here = from;
    let mut known = Scan {
        encoding: Encoding::Unsaid,
        seen: false,
        boundary: None,
    };
    loop {
        let end = s.line(here)?;
        let log = here.note(table, Kind::HeaderLine, end - here.at, Encoding::Unsaid)?;
        let to = Reached { at: end, log };
        if reading::equals(&s.bytes[here.at..end], b"\r\n") {
            return Ok(Headed { known, to });
        }
        known = scan_line(s.bytes, here.at, end, known);
        here = to;
    }
}
