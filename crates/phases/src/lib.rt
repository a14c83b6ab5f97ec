// The phases of a session by windows: each reads on where a window left it, up to the window's end or to another phase. One function for each group of phases,
// and a loop over phases above them. `w` is a window, p a place in it; `kept` holds copies of the open boundaries.
#![tactic(auto)]

ghost use Rattle.std.specs.Prelude.{◌≡◌, ◌+◌, ◌≤◌, length};
ghost use Rattle.rules.specs.Sessions.{limit};
ghost use Rattle.phases.specs.Phasing.{Ready, Turned, Went, ended_of};

use events::{Encoding, Log, Outcome};
use rules::{Mail, Settings};
use strict::Window;

mod bodies;
mod copies;
mod envelope;
mod header;
mod lines;
mod parts;
mod strict;
mod turns;

// What is read next, with what that needs to know: a mail, the literal's rest, the level, where a body began. Where a session is over, its result and place.
#[derive(Clone, Copy)]
pub enum Phase {
    Hello,
    Second,
    User,
    Password,
    Sender,
    Seeking,
    Recipient,
    Reply,
    Status,
    Command,
    Offered(u64),
    Closing,
    Head(Mail, Heard, usize),
    Text(Mail, Encoding),
    Literal(Encoding, usize, u64),
    Preamble(Mail, usize, usize, bool),
    Opened(Mail, usize),
    Content(Mail, Encoding, usize, usize, bool),
    Between(Mail, usize),
    Skipping(Mail, usize),
    Resting(Mail, usize, u64),
    Over(Outcome, usize),
}

// What a header's lines have said so far; a boundary that they supplied stands behind the open ones.
#[derive(Clone, Copy)]
pub struct Heard {
    pub encoding: Encoding,
    pub seen: bool,
    pub supplied: bool,
}

// Where a window has come to: its phase, and how many of its bytes are taken.
#[derive(Clone, Copy)]
pub struct Spot {
    pub phase: Phase,
    pub taken: usize,
    pub log: Log,
}

// On to another phase, by a byte at least; or the window is over.
pub type Turn = Result<Spot, Spot>;

// Phases up to the window's end.
pub fn advance(
    settings: Settings,
    spot: Spot,
    w: &[u8],
    base: usize,
    kept: &mut [u8],
    table: &mut [u32],
) -> Spot
    requires { (base + length w.now ≤ limit) × Ready w.now base kept.old spot }
    ensures { Went settings w.now base kept.old table.old spot kept.new result table.new }
{
    let window = Window::new(settings, w, base);
    let mut now = spot;
    loop {
        match one_phase(window, now, kept, table) {
            Ok(next) => now = next,
            Err(last) => return last,
        }
    }
}

fn one_phase(w: Window, spot: Spot, kept: &mut [u8], table: &mut [u32]) -> Turn
    requires { Ready w.bytes.now w.base kept.old spot }
    ensures { Turned w.entry.settings w.entry.bytes.now w.entry.base kept.old table.old spot kept.new result table.new }
{
    let Spot {
        phase,
        taken: p,
        log,
    } = spot;
    match phase {
        Phase::Hello => envelope::hello(w, p, log),
        Phase::Second => envelope::second(w, p, table, log),
        Phase::User => envelope::user(w, p, table, log),
        Phase::Password => envelope::password(w, p, table, log),
        Phase::Sender => envelope::sender(w, p, table, log),
        Phase::Seeking => envelope::seeking(w, p, table, log),
        Phase::Recipient => envelope::recipients(w, p, table, log),
        Phase::Reply => lines::replies(w, p, table, log),
        Phase::Status => lines::statuses(w, p, table, log),
        Phase::Command => lines::commands(w, p, table, log),
        Phase::Offered(size) => lines::offered(w, p, size, kept, table, log),
        Phase::Closing => lines::closing(w, p, log),
        Phase::Head(mail, heard, level) => {
            header::head(w, p, mail, heard, level, kept, table, log)
        }
        Phase::Text(mail, encoding) => bodies::text(w, p, mail, encoding, table, log),
        Phase::Literal(encoding, from, left) => {
            bodies::literal(w, p, encoding, from, left, table, log)
        }
        Phase::Preamble(mail, level, from, here) => {
            parts::preamble(w, p, mail, level, from, here, kept, log)
        }
        Phase::Opened(mail, level) => parts::opened(w, p, mail, level, log),
        Phase::Content(mail, said, level, from, here) => {
            parts::content(w, p, mail, said, level, from, here, kept, table, log)
        }
        Phase::Between(mail, level) => parts::between(w, p, mail, level, kept, log),
        Phase::Skipping(mail, level) => parts::skipping(w, p, mail, level, kept, log),
        Phase::Resting(mail, level, left) => parts::resting(w, p, mail, level, left, log),
        Phase::Over(result, place) => Err(ended(result, place, p, log)),
    }
}

// The session is over, and stays so: done takes what was read, a refusal nothing.
fn ended(res: Outcome, place: usize, p: usize, log: Log) -> Spot
    ensures { result ≡ ended_of res place p log }
{
    let taken = if res == Outcome::Done { p } else { 0 };
    Spot {
        phase: Phase::Over(res, place),
        taken,
        log,
    }
}
