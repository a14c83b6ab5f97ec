// Sessions by windows: a session is begun once and shown its bytes as they come; the caller shows the untaken ones again at the next window's front.
#![tactic(auto)]

ghost use Rattle.std.specs.Prelude.{◌≡◌, ◌&&◌, List, ℕ, ◌+◌, ◌≤◌, leb};
ghost use Rattle.events.specs.Table.{final_of};
ghost use Rattle.rules.specs.Sessions.{limit};
ghost use Rattle.windows.specs.Windows.{over, said};
ghost use Rattle.phases.specs.Phasing.{state_of};
ghost use Rattle.tap.specs.Tapping.{Begun, Shows, session_with, shown_with, Left, Answers, waiting_at, short_to, fits_by, begun_by, starts_at};

use events::{Answer, Log, Outcome};
use phases::{Phase, Spot};
use rules::{Entry, Mail, Settings};

// The most bytes of a session.
const LIMIT: usize = 16_777_216;

const SLOTS: usize = 9;

const SLOT: usize = 72;

const LONGEST: u8 = 71;

// What is known between windows: what was chosen at the start, the phase, how many bytes are taken, what the writer knows, and copies of the open boundaries.
#[derive(Clone, Copy)]
pub struct Session {
    pub settings: Settings,
    pub phase: Phase,
    pub at: usize,
    pub log: Log,
    pub boundaries: [u8; 648],
}

// The session then, its answer, and how many bytes of the window were taken.
#[derive(Clone, Copy)]
pub struct Shown {
    pub session: Session,
    pub answer: Answer,
    pub taken: usize,
}

// The same but for the settings, which stay, and the copies.
#[derive(Clone, Copy)]
pub struct Seen {
    pub phase: Phase,
    pub at: usize,
    pub log: Log,
    pub answer: Answer,
    pub taken: usize,
}

pub fn begin(entry: Entry, settings: Settings) -> Session
    ensures { Begun settings entry result }
{
    Session {
        settings,
        phase: first_phase(entry),
        at: 0,
        log: Log { count: 0 },
        boundaries: [0; 648],
    }
}

fn first_phase(entry: Entry) -> Phase
    ensures { result ≡ starts_at entry }
{
    match entry {
        Entry::SmtpClient => Phase::Hello,
        Entry::SmtpServer => Phase::Reply,
        Entry::Pop3Server => Phase::Status,
        Entry::ImapClient => Phase::Command,
    }
}

// Any record is shown a window; one that neither `begin` nor `show` made is answered as no session, and left as it is.
pub fn show(session: Session, w: &[u8], table: &mut [u32]) -> Shown
    ensures { Shows session w.now table.old result table.new }
{
    let Session {
        settings,
        phase,
        at,
        log,
        mut boundaries,
    } = session;
    let seen = show_lent(settings, phase, at, log, &mut boundaries, w, table);
    Shown {
        session: Session {
            settings,
            phase: seen.phase,
            at: seen.at,
            log: seen.log,
            boundaries,
        },
        answer: seen.answer,
        taken: seen.taken,
    }
}

// The same where the copies are lent, so that none of them is copied for a window.
pub fn show_lent(
    settings: Settings,
    phase: Phase,
    at: usize,
    log: Log,
    kept: &mut [u8; 648],
    w: &[u8],
    table: &mut [u32],
) -> Seen
    ensures { Shows (session_with settings phase at log kept.old) w.now table.old
        (shown_with settings result kept.new) table.new }
{
    let here = Spot {
        phase,
        taken: 0,
        log,
    };
    if !sound(phase, at, kept) {
        return no_session(here, at);
    }
    if is_over(phase) {
        return answered(here, at);
    }
    if LIMIT - at < w.len() {
        let over = Phase::Over(Outcome::TooLong, 0);
        return answered(
            Spot {
                phase: over,
                ..here
            },
            at,
        );
    }
    let spot = phases::advance(settings, here, w, at, kept, table);
    answered(spot, at)
}

// Of a record that is none, nothing is done.
fn no_session(spot: Spot, at: usize) -> Seen
    ensures { (set : Settings) (k : List ℕ) → Left set spot at k (shown_with set result k) }
{
    Seen {
        phase: spot.phase,
        at,
        log: spot.log,
        answer: Answer {
            result: Outcome::NoSession,
            place: 0,
            count: 0,
        },
        taken: 0,
    }
}

// What a spot makes of a record.
fn answered(spot: Spot, base: usize) -> Seen
    requires { base + spot.taken ≤ limit }
    ensures { (set : Settings) (k : List ℕ) → Answers set spot base k (shown_with set result k) }
{
    let Spot { phase, taken, log } = spot;
    let at = base + taken;
    Seen {
        phase,
        at,
        log,
        answer: answer_of(phase, at, log),
        taken,
    }
}

// A read that waits is incomplete, where it began.
fn answer_of(phase: Phase, at: usize, log: Log) -> Answer
    ensures { (k u : List ℕ) → final_of u result ≡ said (record { stand = state_of k phase; at = at; log = log }) u }
{
    match phase {
        Phase::Over(result, place) => Answer {
            result,
            place,
            count: log.count,
        },
        Phase::Literal(_, from, _)
        | Phase::Preamble(_, _, from, _)
        | Phase::Content(_, _, _, from, _) => waiting(from, log),
        _ => waiting(at, log),
    }
}

fn waiting(place: usize, log: Log) -> Answer
    ensures { result ≡ waiting_at place log }
{
    Answer {
        result: Outcome::Incomplete,
        place,
        count: log.count,
    }
}

#[tactic(auto, using(crate::proofs::Arms::reads_on), unfolding(phases::specs::Phasing::state_of, windows::specs::Windows::over))]
fn is_over(phase: Phase) -> bool
    ensures { (k : List ℕ) → result ≡ over (state_of k phase) }
{
    matches!(phase, Phase::Over(_, _))
}

// ---- the test of a record: its numbers are such as `begin` and `show` give

fn sound(phase: Phase, at: usize, boundaries: &[u8; 648]) -> bool
    ensures { result ≡ (leb at limit && (short_to boundaries.now 9 && fits_by phase at)) }
{
    at <= LIMIT && short_slots(boundaries) && phase_fits(phase, at)
}

// No copy is longer than it may be.
fn short_slots(boundaries: &[u8; 648]) -> bool
    ensures { result ≡ short_to boundaries.now 9 }
{
    (0..SLOTS).all(|i| boundaries[i * SLOT] <= LONGEST)
}

#[tactic(auto, using(crate::proofs::Arms::holds_none), unfolding(crate::specs::Tapping::fits_by))]
fn phase_fits(phase: Phase, at: usize) -> bool
    ensures { result ≡ fits_by phase at }
{
    match phase {
        Phase::Head(mail, _, level) => at_level(level, 8, mail, at),
        Phase::Literal(_, from, _) => from <= at,
        Phase::Preamble(mail, level, from, _) | Phase::Content(mail, _, level, from, _) => {
            from <= at && at_level(level, 7, mail, at)
        }
        Phase::Opened(mail, level)
        | Phase::Between(mail, level)
        | Phase::Skipping(mail, level)
        | Phase::Resting(mail, level, _) => at_level(level, 7, mail, at),
        _ => true,
    }
}

fn at_level(level: usize, most: usize, mail: Mail, at: usize) -> bool
    ensures { result ≡ (leb level most && begun_by mail at) }
{
    level <= most && begun_by(mail, at)
}

#[tactic(auto, unfolding(crate::specs::Tapping::begun_by))]
fn begun_by(mail: Mail, at: usize) -> bool
    ensures { result ≡ begun_by mail at }
{
    match mail {
        Mail::Smtp | Mail::Pop3 => true,
        Mail::Imap(_, start) => start <= at,
    }
}
