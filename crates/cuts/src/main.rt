// Lists every case of a file of cut cases on standard input (oracle/README.md, 'Formats') in the oracle's own form: a line for each window, then the events.
// A line of words, which the oracle never writes, says that a number behind the events was written, or that a record is broken, cut or too large;
// behind one of these the run ends.
#![tactic(auto)]

ghost use Rattle.std.specs.Prelude.{◌+◌, ◌≤◌, length, IfOk};

use cases::{Ending, Head};
use events::{Answer, Outcome};
use rules::{Entry, Settings};
use std::io;
use std::io::{Stdin, Write};
use tap::{Session, Shown};

// A session's bytes, its windows' lengths, the numbers of its table with some over, and bytes for a listing.
const BYTES: usize = 65_536;

const LENGTHS: usize = 65_536;

const TABLE: usize = 262_147;

const OUTPUT: usize = 262_144;

// What the windows came to: how far their lines go, and the last answer.
#[derive(Clone, Copy)]
struct Windows {
    text: usize,
    answer: Answer,
}

fn main(rt: HostRuntime) -> io::Result<()> {
    let mut bytes = [0u8; BYTES];
    let mut lengths = [0u8; LENGTHS];
    let mut table = [0u32; TABLE];
    let mut out = [0u8; OUTPUT];
    list_all(
        &mut rt.stdin(),
        &mut rt.stdout(),
        &mut bytes,
        &mut lengths,
        &mut table,
        &mut out,
    )
}

// A proved loop has to end, and nothing says that a file does. So the loop has so many turns that no run uses them up.
fn list_all<W: Write>(
    input: &mut Stdin,
    writer: &mut W,
    bytes: &mut [u8],
    lengths: &mut [u8],
    table: &mut [u32],
    out: &mut [u8],
) -> io::Result<()>
    requires { 64 ≤ length out.old }
{
    for _ in 0..u64::MAX {
        match next(input, bytes, lengths, table, out) {
            Ok(n) => writer.write_all(&out[..n])?,
            Err(ending) => return writer.write_all(ending.word()),
        }
    }
    Ok(())
}

// How many bytes at the front of out are the text of the next case.
fn next(
    input: &mut Stdin,
    bytes: &mut [u8],
    lengths: &mut [u8],
    table: &mut [u32],
    out: &mut [u8],
) -> Result<usize, Ending>
    requires { 64 ≤ length out.old }
    ensures { IfOk result (λ n. n ≤ length out.new) }
{
    let head = cases::next_head(input)?;
    if bytes.len() < head.length {
        return Err(Ending::Large);
    }
    let s = &mut bytes[..head.length];
    read_all(input, s)?;
    read_windows(input, head, s, lengths, table, out)
}

// A read that fails inside a record cuts it.
fn read_all(input: &mut Stdin, buf: &mut [u8]) -> Result<(), Ending> {
    cases::read(input, buf).map_err(|_| Ending::Cut)
}

// The settings and the windows' lengths behind a record's bytes, and what the record comes to.
fn read_windows(
    input: &mut Stdin,
    head: Head,
    bytes: &[u8],
    lengths: &mut [u8],
    table: &mut [u32],
    out: &mut [u8],
) -> Result<usize, Ending>
    requires { 64 ≤ length out.old }
    ensures { IfOk result (λ n. n ≤ length out.new) }
{
    let mut numbers = [0u8; 8];
    read_all(input, &mut numbers)?;
    let strict = match cases::four(&numbers, 0) {
        0 => false,
        1 => true,
        _ => return Err(Ending::Broken),
    };
    let windows = cases::four(&numbers, 4) as usize;
    if lengths.len() / 4 < windows {
        return Err(Ending::Large);
    }
    let windows = &mut lengths[..4 * windows];
    read_all(input, windows)?;
    let Some(entry) = letters::entry_of(head.letter) else {
        return Err(Ending::Broken);
    };
    let settings = Settings { strict };
    case(entry, settings, head.slots, bytes, windows, table, out)
}

fn case(
    entry: Entry,
    settings: Settings,
    slots: usize,
    bytes: &[u8],
    lengths: &[u8],
    table: &mut [u32],
    out: &mut [u8],
) -> Result<usize, Ending>
    requires { 64 ≤ length out.old }
    ensures { IfOk result (λ n. n ≤ length out.new) }
{
    let Some(lent) = cases::lent(table.len(), slots, bytes.len()) else {
        return Err(Ending::Large);
    };
    let t = &mut table[..lent];
    cases::fill(t);
    let listed = show_all(entry, settings, bytes, lengths, t, out)?;
    list(t, listed, out)
}

// The listing of the last answer behind the windows' lines, if no number behind its events was written.
fn list(table: &[u32], windows: Windows, out: &mut [u8]) -> Result<usize, Ending>
    requires { windows.text ≤ length out.old }
    ensures { IfOk result (λ n. n ≤ length out.new) }
{
    let count = windows.answer.count;
    let room = out.len() - windows.text;
    if room < listing::LAST_LINE {
        return Err(Ending::Large);
    }
    if (room - listing::LAST_LINE) / listing::EVENT_LINE < count {
        return Err(Ending::Large);
    }
    if table.len() / events::WIDTH < count {
        return Err(Ending::Broken);
    }
    let written = events::WIDTH * count;
    if !cases::untouched(&table[written..]) {
        return Err(Ending::Touched);
    }
    Ok(listing::append(out, windows.text, table, windows.answer))
}

// Shows the session's windows one after another; the untaken bytes of each stand before the next.
fn show_all(
    entry: Entry,
    settings: Settings,
    bytes: &[u8],
    lengths: &[u8],
    table: &mut [u32],
    out: &mut [u8],
) -> Result<Windows, Ending>
    ensures { IfOk result (λ windows. windows.text ≤ length out.new) }
{
    let mut session = tap::begin(entry, settings);
    let mut answer = Answer {
        result: Outcome::Incomplete,
        place: 0,
        count: 0,
    };
    let mut at = 0;
    let mut to = 0;
    let mut text = 0;
    for i in 0..lengths.len() / 4 {
        let new = cases::four(lengths, 4 * i) as usize;
        if bytes.len() - to < new {
            return Err(Ending::Broken);
        }
        if out.len() - text < listing::EVENT_LINE {
            return Err(Ending::Large);
        }
        to += new;
        let r = show(session, &bytes[at..to], table);
        session = r.session;
        answer = r.answer;
        at += r.taken;
        text = window_line(out, text, r.taken, answer);
    }
    Ok(Windows { text, answer })
}

// What a window takes lies in it.
fn show(session: Session, w: &[u8], table: &mut [u32]) -> Shown
    ensures { result.taken ≤ length w.now }
{
    tap::show(session, w, table)
}

// The line of a window: what was taken, and its answer.
fn window_line(out: &mut [u8], at: usize, taken: usize, a: Answer) -> usize
    requires { at + 84 ≤ length out.old }
    ensures { result ≤ length out.new }
{
    let number = events::result_number(a.result);
    let place = listing::word(out, at, taken as u64, b' ');
    let next = listing::word(out, place, number as u64, b' ');
    let then = listing::word(out, next, a.place as u64, b' ');
    listing::word(out, then, a.count as u64, b'\n')
}
