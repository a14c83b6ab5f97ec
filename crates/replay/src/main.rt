// Replays the oracle's stored answers, the file cases.bin (oracle/README.md, 'Formats'): compares result, place, count, every event and
// the numbers of the table behind them. Prints `entry result count` for each entry and stored result, then how many cases there were and
// how many differ; `broken` before that where a record cannot be read.
#![tactic(auto)]

ghost use Rattle.std.specs.Prelude.{◌≡◌, ◌*◌, ◌≤◌, length, IfSome};
ghost use Rattle.events.specs.Table.{final_of};
ghost use Rattle.replay.specs.Replay.{agree, OfDirection, OfSession, OfRecord, OfFile, index_of, letter_of, group_of, counted_in, with_case};

use cases::{Ending, Head};
use events::Answer;
use rules::Entry;
use std::fs::File;
use std::io;
use std::io::{Stdout, Write};

// A session's bytes, its stored events, and the numbers of its table with some over.
const BYTES: usize = 4_096;

const EVENTS: usize = 65_536;

const TABLE: usize = 16_387;

// Cases are counted by letter and stored result, sixteen results for each of five letters.
const GROUPS: usize = 80;

const RESULTS: usize = 16;

// A stored answer: result, place, count; and the bytes of an event.
const ANSWER: usize = 12;

const EVENT: usize = 16;

// The stored result, and whether the answer is the stored one.
#[derive(Clone, Copy)]
struct Replayed {
    result: u32,
    same: bool,
}

// The same with the case's group.
#[derive(Clone, Copy)]
struct Case {
    group: usize,
    same: bool,
}

#[derive(Clone, Copy)]
struct Counts {
    cases: u64,
    differences: u64,
    broken: bool,
}

impl Counts {
    // With one case more.
    #[tactic(auto, unfolding(crate::specs::Replay::with_case))]
    fn with(self, case: Case) -> Self
        ensures { result ≡ with_case self case }
    {
        let differing = if case.same { 0 } else { 1 };
        Counts {
            cases: self.cases.wrapping_add(1),
            differences: self.differences.wrapping_add(differing),
            ..self
        }
    }

    fn ended(self, broken: bool) -> Self
        ensures { (result.cases ≡ self.cases) × (result.differences ≡ self.differences) × (result.broken ≡ broken) }
    {
        Counts { broken, ..self }
    }
}

fn main(rt: HostRuntime) -> io::Result<()> {
    let mut file = File::open(&rt, "cases.bin")?;
    let mut bytes = [0u8; BYTES];
    let mut events = [0u8; EVENTS];
    let mut table = [0u32; TABLE];
    let mut groups = [0u64; GROUPS];
    let counts = replay(&mut file, &mut bytes, &mut events, &mut table, &mut groups);
    print_groups(&mut rt.stdout(), &groups)?;
    print_counts(&rt, counts)
}

// Every case of the file, counted in its group. The loop has so many turns that no run uses them up.
fn replay(
    file: &mut File,
    bytes: &mut [u8],
    events: &mut [u8],
    table: &mut [u32],
    groups: &mut [u64],
) -> Counts {
    let mut counts = Counts {
        cases: 0,
        differences: 0,
        broken: true,
    };
    for _ in 0..u64::MAX {
        match next_case(file, bytes, events, table) {
            Ok(case) => {
                count(groups, case.group);
                counts = counts.with(case);
            }
            Err(ending) => return counts.ended(ending != Ending::End),
        }
    }
    counts
}

#[tactic(auto, unfolding(crate::specs::Replay::counted_in))]
fn count(groups: &mut [u64], group: usize)
    ensures { groups.new ≡ counted_in groups.old group }
{
    if group < groups.len() {
        groups[group] = groups[group].wrapping_add(1);
    }
}

fn next_case(
    file: &mut File,
    bytes: &mut [u8],
    events: &mut [u8],
    table: &mut [u32],
) -> Result<Case, Ending>
    ensures { OfFile bytes.new events.new result }
{
    let head = cases::next_head(file)?;
    match read_case(file, head, bytes, events, table) {
        Some(replayed) => grouped(head.letter, replayed),
        None => Err(Ending::Broken),
    }
}

#[tactic(auto, unfolding(crate::specs::Replay::group_of))]
fn grouped(letter: u8, replayed: Replayed) -> Result<Case, Ending>
    ensures { result ≡ group_of letter replayed }
{
    if replayed.result > 15 {
        return Err(Ending::Broken);
    }
    Ok(Case {
        group: index(letter) * RESULTS + replayed.result as usize,
        same: replayed.same,
    })
}

#[tactic(auto, unfolding(crate::specs::Replay::index_of))]
fn index(letter: u8) -> usize
    ensures { (result ≡ index_of letter) × (result ≤ 4) }
{
    match letter {
        b'S' => 0,
        b's' => 1,
        b'P' => 2,
        b'I' => 3,
        _ => 4,
    }
}

// The bytes behind a record's head and the stored answer behind them; none where the record is broken.
fn read_case(
    file: &mut File,
    head: Head,
    bytes: &mut [u8],
    events: &mut [u8],
    table: &mut [u32],
) -> Option<Replayed>
    ensures { IfSome result (OfRecord head bytes.new events.new) }
{
    if bytes.len() < head.length {
        return None;
    }
    let s = &mut bytes[..head.length];
    cases::read(file, s).ok()?;
    if head.letter == b'D' {
        return direction_case(file, s);
    }
    let entry = letters::entry_of(head.letter)?;
    session_case(file, entry, head.slots, s, events, table)
}

fn direction_case(file: &mut File, bytes: &[u8]) -> Option<Replayed>
    ensures { IfSome result (OfDirection bytes.now) }
{
    let mut stored = [0u8; 4];
    cases::read(file, &mut stored).ok()?;
    let result = cases::four(&stored, 0);
    let n = cases::guess(bytes)?;
    Some(Replayed {
        result,
        same: n == result,
    })
}

fn session_case(
    file: &mut File,
    entry: Entry,
    slots: usize,
    bytes: &[u8],
    events: &mut [u8],
    table: &mut [u32],
) -> Option<Replayed>
    ensures { IfSome result (OfSession entry slots bytes.now events.new) }
{
    let mut stored = [0u8; ANSWER];
    cases::read(file, &mut stored).ok()?;
    let n = cases::four(&stored, 8) as usize;
    if events.len() / EVENT < n {
        return None;
    }
    let events = &mut events[..EVENT * n];
    cases::read(file, events).ok()?;
    let lent = cases::lent(table.len(), slots, bytes.len())?;
    let t = &mut table[..lent];
    cases::fill(t);
    let a = sessions::dissect(entry, bytes, t);
    Some(Replayed {
        result: cases::four(&stored, 0),
        same: agrees(t, a, &stored, events),
    })
}

// Whether an answer and its table are the stored ones, and no number behind the events was written.
#[tactic(auto, using(reading::proofs::Words::rest_is), unfolding(crate::specs::Replay::agree))]
fn agrees(table: &[u32], a: Answer, stored: &[u8], events: &[u8]) -> bool
    requires { (4 * a.count ≤ length table.now) × (12 ≤ length stored.now) }
    ensures { result ≡ agree (final_of table.now a) stored.now events.now }
{
    let written = events::WIDTH * a.count;
    events::result_number(a.result) == cases::four(stored, 0)
        && a.place as u64 == cases::four(stored, 4) as u64
        && cases::same_numbers(&table[..written], events)
        && cases::untouched(&table[written..])
}

fn print_groups(out: &mut Stdout, groups: &[u64]) -> io::Result<()> {
    for (g, n) in groups.iter().enumerate() {
        if *n != 0 {
            print_group(out, g, *n)?;
        }
    }
    Ok(())
}

// A line is one write.
fn print_group(out: &mut Stdout, g: usize, n: u64) -> io::Result<()> {
    let mut text = [0u8; 64];
    text[0] = letter_of(g / RESULTS);
    text[1] = b' ';
    let result = listing::word(&mut text, 2, (g % RESULTS) as u64, b' ');
    let end = listing::word(&mut text, result, n, b'\n');
    out.write_all(&text[..end])
}

#[tactic(auto, unfolding(crate::specs::Replay::letter_of))]
fn letter_of(index: usize) -> u8
    ensures { result ≡ letter_of index }
{
    match index {
        0 => b'S',
        1 => b's',
        2 => b'P',
        3 => b'I',
        _ => b'D',
    }
}

fn print_counts(rt: &impl Print, counts: Counts) -> io::Result<()> {
    if counts.broken {
        println!(rt; "broken")?;
    }
    let cases = counts.cases;
    let differences = counts.differences;
    println!(rt; "{cases} cases, {differences} differences")
}
