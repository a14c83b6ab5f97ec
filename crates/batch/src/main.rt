// Lists every case of a batch file on standard input (oracle/README.md, 'Formats') in the oracle's own form.
// A line of words, which the oracle never writes, says that a number behind the events was written, or that a record is broken, cut
// or too large; behind one of these the run ends.
#![tactic(auto)]

ghost use Rattle.std.specs.Prelude.{◌*◌, ◌≤◌, length};
ghost use Rattle.events.specs.Table.{final};
ghost use Rattle.batch.specs.Batch.{Shows, ShowsOne, OfInput, OfRecord, listed, said_of};

use cases::{Ending, Head};
use events::Answer;
use std::io;
use std::io::{Stdin, Write};

// A session's bytes, the numbers of its table with some over, and bytes for a listing.
const BYTES: usize = 65_536;

const TABLE: usize = 262_147;

const OUTPUT: usize = 262_144;

fn main(rt: HostRuntime) -> io::Result<()> {
    let mut bytes = [0u8; BYTES];
    let mut table = [0u32; TABLE];
    let mut out = [0u8; OUTPUT];
    list_all(
        &mut rt.stdin(),
        &mut rt.stdout(),
        &mut bytes,
        &mut table,
        &mut out,
    )
}

// A proved loop has to end, and nothing says that a file does. So the loop has so many turns that no run uses them up.
fn list_all<W: Write>(
    input: &mut Stdin,
    writer: &mut W,
    bytes: &mut [u8],
    table: &mut [u32],
    out: &mut [u8],
) -> io::Result<()>
    requires { 64 ≤ length out.old }
{
    for _ in 0..u64::MAX {
        match next(input, bytes, table, out) {
            Ok(n) => writer.write_all(&out[..n])?,
            Err(ending) => return writer.write_all(ending.word()),
        }
    }
    Ok(())
}

// How many bytes at the front of out are the text of the next case.
fn next(
    input: &mut Stdin,
    bytes: &mut [u8],
    table: &mut [u32],
    out: &mut [u8],
) -> Result<usize, Ending>
    requires { 64 ≤ length out.old }
    ensures { ShowsOne (OfInput bytes.new (length table.old) (length out.old)) out.old result out.new }
{
    let head = cases::next_head(input)?;
    read_case(input, head, bytes, table, out)
}

// The bytes behind a record's head, and what they come to.
fn read_case(
    input: &mut Stdin,
    head: Head,
    bytes: &mut [u8],
    table: &mut [u32],
    out: &mut [u8],
) -> Result<usize, Ending>
    requires { 64 ≤ length out.old }
    ensures { ShowsOne (OfRecord head bytes.new (length table.old) (length out.old)) out.old result out.new }
{
    if bytes.len() < head.length {
        return Err(Ending::Large);
    }
    let s = &mut bytes[..head.length];
    cases::read(input, s)?;
    case(head.letter, head.slots, s, table, out)
}

fn case(
    letter: u8,
    slots: usize,
    bytes: &[u8],
    table: &mut [u32],
    out: &mut [u8],
) -> Result<usize, Ending>
    requires { 64 ≤ length out.old }
    ensures { Shows out.old (said_of letter slots (length table.old) (length out.old) bytes.now) result out.new }
{
    if letter == b'D' {
        let Some(n) = cases::guess(bytes) else {
            return Err(Ending::Broken);
        };
        return Ok(listing::word(out, 0, n as u64, b'\n'));
    }
    let Some(entry) = letters::entry_of(letter) else {
        return Err(Ending::Broken);
    };
    let Some(lent) = cases::lent(table.len(), slots, bytes.len()) else {
        return Err(Ending::Large);
    };
    let t = &mut table[..lent];
    cases::fill(t);
    let a = sessions::dissect(entry, bytes, t);
    list(t, a, out)
}

// The listing of an answer, if no number behind its events was written.
fn list(table: &[u32], a: Answer, out: &mut [u8]) -> Result<usize, Ending>
    requires { (4 * a.count ≤ length table.now) × (64 ≤ length out.old) }
    ensures { Shows out.old (listed (length out.old) (final table.now a.result a.place a.count)) result out.new }
{
    if (out.len() - listing::LAST_LINE) / listing::EVENT_LINE < a.count {
        return Err(Ending::Large);
    }
    let written = events::WIDTH * a.count;
    if !cases::untouched(&table[written..]) {
        return Err(Ending::Touched);
    }
    Ok(listing::append(out, 0, table, a))
}
