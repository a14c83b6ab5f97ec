// What only the walks need beside reads and events: reads that stop the session, a line that is listed, a session of turns, and how an entry answers.
// Stands for the readers of `PktStrm` and the callbacks.
ghost use Rattle.std.specs.Prelude.{◌≡◌, List, [], ◌∷◌, ℕ, ◌-◌, ◌≤◌, ◌<◌, length};
ghost use Rattle.events.specs.Events.{ev, kind_number};
ghost use Rattle.events.specs.Table.{final_of, no_events};
ghost use Rattle.fields.specs.Common.{bytes_of};
ghost use Rattle.reading.specs.Reading.{a_line, delimiter};
ghost use Rattle.reading.specs.Reading as need;
ghost use Rattle.reads.specs.Clauses.{Stopped, Notes, final_at};
ghost use Rattle.rules.specs.Phases.{Phase, reads};
ghost use Rattle.rules.specs.Sessions.{limit, session, settle};
ghost use Rattle.sessions.specs.declared.walks.Reached.{Reached};
ghost use Rattle.sessions.specs.Walks.{ReadIs, CleanIs, TwoIs, LinedIs, Lies, Turns};

use crate::buffer::Buffer;
use events::{Answer, Encoding, Kind, Log, Outcome};
use reading::Span;
use reads::{CleanLine, Stop, Two, note, stopped};

// Where a walk has come to, and what is listed by then.
#[derive(Clone, Copy)]
pub struct Reached {
    pub at: usize,
    pub log: Log,
}

impl Reached {
    // The session stops here.
    pub fn stop(self, o: Outcome) -> Stop
        ensures { Stopped o self.at self.log result }
    {
        stopped(o, self.at, self.log)
    }

    // An event of n bytes from here on.
    pub fn note(
        self,
        table: &mut [u32],
        kind: Kind,
        n: usize,
        encoding: Encoding,
    ) -> Result<Log, Stop>
        requires { (self.at ≤ limit) × (n ≤ limit) }
        ensures { Notes table.old self.log (ev (kind_number kind) self.at n encoding ∷ []) result table.new }
    {
        note(table, self.log, kind, self.at, n, encoding)
    }
}

// Where each session starts.
pub const START: Reached = Reached {
    at: 0,
    log: Log { count: 0 },
};

// Where a walk came to, or the session's end.
pub type Walk = Result<Reached, Stop>;

// A line listed clean: where its clean part ends, and what comes behind it.
#[derive(Clone, Copy)]
pub struct Lined {
    pub clean: usize,
    pub to: Reached,
}

// Reads from where a walk has come to: the place behind, or the session's end there.
impl<'a> Buffer<'a> {
    pub fn line(self, here: Reached) -> Result<usize, Stop>
        requires { here.at ≤ length self.bytes.now }
        ensures { ReadIs a_line self.entry.bytes.now here.log here.at result }
    {
        reads::line(self.bytes, here.at).map_err(|o| here.stop(o))
    }

    pub fn clean_line(self, here: Reached) -> Result<CleanLine, Stop>
        requires { here.at ≤ length self.bytes.now }
        ensures { CleanIs self.entry.bytes.now here.log here.at result }
    {
        reads::clean_line(self.bytes, here.at).map_err(|o| here.stop(o))
    }

    pub fn sized(self, here: Reached, n: u64) -> Result<usize, Stop>
        requires { (here.at ≤ length self.bytes.now) × (0 < n) }
        ensures { ReadIs (need.bytes (n - 1)) self.entry.bytes.now here.log here.at result }
    {
        reads::sized(self.bytes, here.at, n).map_err(|o| here.stop(o))
    }

    pub fn two_bytes(self, here: Reached) -> Result<Two, Stop>
        requires { here.at ≤ length self.bytes.now }
        ensures { TwoIs self.entry.bytes.now here.log here.at result }
    {
        reads::two_bytes(self.bytes, here.at).map_err(|o| here.stop(o))
    }

    // Everything up to a delimiter for the boundary, and that.
    pub fn delimited(self, here: Reached, b: Span) -> Result<usize, Stop>
        requires { (here.at ≤ length self.bytes.now) × Lies self.bytes.now b }
        ensures { ReadIs (delimiter (bytes_of self.entry.bytes.now b)) self.entry.bytes.now here.log here.at result }
    {
        match reading::delimiter(&self.bytes[here.at..], b.of(self.bytes)) {
            Some(p) => Ok(here.at + p + 2 + b.len),
            None => Err(here.stop(Outcome::Incomplete)),
        }
    }

    // A clean line, listed.
    #[tactic(auto, using(crate::proofs::Lines::lined_short, crate::proofs::Lines::lined_full))]
    pub fn note_line(self, from: Reached, kind: Kind, table: &mut [u32]) -> Result<Lined, Stop>
        requires { from.at ≤ length self.bytes.now }
        ensures { LinedIs self.entry.bytes.now table.old from.log from.at (kind_number kind) result table.new }
    {
        let l = self.clean_line(from)?;
        let log = from.note(table, kind, l.clean - from.at, Encoding::Unsaid)?;
        Ok(Lined {
            clean: l.clean,
            to: Reached { at: l.end, log },
        })
    }
}

// What an entry answers where its session stops.
pub fn answer(stop: Stop) -> Answer
    ensures { (u : List ℕ) → final_of u result ≡ final_at u stop }
{
    Answer {
        result: stop.result,
        place: stop.place,
        count: stop.log.count,
    }
}

// A session whose turns are all alike, up to its end.
pub fn run<F: Fn(Buffer, Reached, &mut [u32]) -> Walk>(
    s: Buffer,
    table: &mut [u32],
    turn: F,
) -> Stop
    ghost ph: { Phase }
    requires may { (p : Reached) (t : _) → p.at ≤ length s.bytes.now → F.pre turn s p t }
    requires turns { (p : Reached) (t : _) (r : _) (u : _) → F.post turn s p t r u → Turns s.bytes.now t.now p.log p.at ph r u.now }
    ensures { final_at table.new result ≡ settle table.old no_events (session (reads ph) 0 s.entry.bytes.now) }
{
    let mut here = START;
    loop {
        match turn(s, here, table) {
            Ok(to) => here = to,
            Err(a) => return a,
        }
    }
}
