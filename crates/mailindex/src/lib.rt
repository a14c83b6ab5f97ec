// Sessions by windows, the four entries and the direction guess for C and Rust: include/mailindex.h documents each number.
#![tactic(auto)]

ghost use Rattle.std.specs.Prelude.{◌≡◌};
ghost use Rattle.direction.specs.Direction.{guess, guess_number};
ghost use Rattle.rules.specs.Sessions.{smtp_client, smtp_server, pop3_server, imap_client};
ghost use Rattle.mailindex.specs.Exports.{Answers, numbers_of, marked, version, chosen, entry_by, unset, Begins, Showing, shown_of};

use events::{Answer, Log, Outcome};
use rules::{Entry, Settings};

const VERSION: u32 = 4;

// The entry and the settings that a session's choices name.
#[derive(Clone, Copy)]
pub struct Chosen {
    pub entry: Entry,
    pub settings: Settings,
}

// Begins a session: what C holds of it is its numbers and the copies of its open boundaries.
pub fn mailindex_begin(
    choices: &[u64; 8],
    numbers: &mut [u64; 24],
    boundaries: &mut [u8; 648],
) -> u32
    ensures { Begins (chosen choices.now) numbers.new boundaries.new result }
{
    let Some(chosen) = choice_of(choices) else {
        *numbers = [0; 24];
        *boundaries = [0; 648];
        return events::result_number(Outcome::NoSession);
    };
    let session = tap::begin(chosen.entry, chosen.settings);
    *numbers = flat::numbers_of(chosen.settings, session.phase, session.at, session.log);
    let copies = session.boundaries;
    *boundaries = copies;
    events::result_number(Outcome::Incomplete)
}

// Shows it a window: result, place, count and how many bytes were taken.
pub fn mailindex_show(
    numbers: &mut [u64; 24],
    boundaries: &mut [u8; 648],
    w: &[u8],
    table: &mut [u32],
    answer: &mut [u64; 4],
)
    ensures { Showing numbers.old boundaries.old w.now table.old
        numbers.new boundaries.new table.new answer.new }
{
    let settings = flat::settings_of(numbers);
    let phase = flat::phase_of(numbers);
    let at = numbers[1] as usize;
    let log = Log {
        count: numbers[2] as usize,
    };
    let seen = tap::show_lent(settings, phase, at, log, boundaries, w, table);
    *numbers = flat::numbers_of(settings, seen.phase, seen.at, seen.log);
    *answer = shown_numbers(seen.answer, seen.taken);
}

// The entry at index 0, the strict setting at index 1; the other choices have no name yet, and are 0.
#[tactic(auto, unfolding(crate::specs::Exports::strict_by))]
fn choice_of(choices: &[u64; 8]) -> Option<Chosen>
    ensures { result ≡ chosen choices.now }
{
    if !rest_unset(choices) {
        return None;
    }
    let strict = match choices[1] {
        0 => false,
        1 => true,
        _ => return None,
    };
    let entry = entry_of(choices[0])?;
    let settings = Settings { strict };
    Some(Chosen { entry, settings })
}

#[tactic(auto, unfolding(crate::specs::Exports::entry_by))]
fn entry_of(n: u64) -> Option<Entry>
    ensures { result ≡ entry_by n }
{
    match n {
        1 => Some(Entry::SmtpClient),
        2 => Some(Entry::SmtpServer),
        3 => Some(Entry::Pop3Server),
        4 => Some(Entry::ImapClient),
        _ => None,
    }
}

fn rest_unset(choices: &[u64; 8]) -> bool
    ensures { result ≡ unset choices.now 7 }
{
    for i in (2..8).rev() {
        if choices[i] != 0 {
            return false;
        }
    }
    true
}

fn shown_numbers(a: Answer, taken: usize) -> [u64; 4]
    ensures { result ≡ shown_of a taken }
{
    [
        events::result_number(a.result) as u64,
        a.place as u64,
        a.count as u64,
        taken as u64,
    ]
}

pub fn mailindex_smtp_client(s: &[u8], table: &mut [u32], answer: &mut [u64; 3])
    ensures { Answers (smtp_client table.old s.now) table.new answer.new }
{
    *answer = numbers(sessions::smtp_client(s, table));
}

pub fn mailindex_smtp_server(s: &[u8], table: &mut [u32], answer: &mut [u64; 3])
    ensures { Answers (smtp_server table.old s.now) table.new answer.new }
{
    *answer = numbers(sessions::smtp_server(s, table));
}

pub fn mailindex_pop3_server(s: &[u8], table: &mut [u32], answer: &mut [u64; 3])
    ensures { Answers (pop3_server table.old s.now) table.new answer.new }
{
    *answer = numbers(sessions::pop3_server(s, table));
}

pub fn mailindex_imap_client(s: &[u8], table: &mut [u32], answer: &mut [u64; 3])
    ensures { Answers (imap_client table.old s.now) table.new answer.new }
{
    *answer = numbers(sessions::imap_client(s, table));
}

// A mark that is not 0 says that the payload is held.
pub fn mailindex_direction(
    protocol: u32,
    client_port: u32,
    server_port: u32,
    client_held: u32,
    client: &[u8],
    server_held: u32,
    server: &[u8],
) -> u32
    ensures { result ≡ guess_number (guess protocol (marked client_port client_held client.now) (marked server_port server_held server.now)) }
{
    direction::guess_number(direction::dir_confirm(
        protocol,
        client_port,
        server_port,
        client_held != 0,
        client,
        server_held != 0,
        server,
    ))
}

// The header's number of what the library is.
pub fn mailindex_version() -> u32
    ensures { result ≡ version }
{
    VERSION
}

// Result, place, count.
fn numbers(a: Answer) -> [u64; 3]
    ensures { result ≡ numbers_of a }
{
    [
        events::result_number(a.result) as u64,
        a.place as u64,
        a.count as u64,
    ]
}
