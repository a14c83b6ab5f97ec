// Lists a session from standard input: its letter (S, s, P or I), then at most 3,072 bytes; prints `bad` or `long` where it is not so.
// Where standard input cannot be read to its end nothing is listed, and the program ends with an error.
#![tactic(auto)]

ghost use Rattle.std.specs.Prelude.{◌≡◌, ◌≤◌, length, replicate, OnOk, IfSome};
ghost use Rattle.std.specs.Io.KnownBytes.{Appends};
ghost use Rattle.maillist.specs.Maillist.{Prints, printed, listed};

use rules::Entry;
use std::io;
use std::io::{Error, Read, Write};

// A letter, the session's bytes, and one byte by which a longer session is known.
const INPUT: usize = 3_074;

const LONGEST: usize = 3_072;

// Numbers of a table with a slot for each byte, and bytes enough for its listing.
const TABLE: usize = 12_288;

const OUTPUT: usize = 258_111;

fn main(rt: HostRuntime) -> io::Result<()> {
    run(&mut rt.stdin(), &mut rt.stdout())
}

// Where it ends well, from a reader whose bytes are known to be xs, what is written is what the program prints on xs.
fn run<R: Read, W: Write>(reader: &mut R, writer: &mut W) -> io::Result<()>
    ensures { OnOk result (IfSome (R.remaining reader.old) (λ xs. Appends (W.contents writer.old) (W.contents writer.new) (printed xs))) }
{
    let mut bytes = [0u8; INPUT];
    let Ok(n) = input::fill(reader, &mut bytes) else {
        return Err(Error::other("standard input"));
    };
    print(writer, &bytes[..n])
}

// Writes what the program prints on an input.
fn print<W: Write>(writer: &mut W, input: &[u8]) -> io::Result<()>
    ensures { OnOk result (Appends (W.contents writer.old) (W.contents writer.new) (printed input.now)) }
{
    let mut out = [0u8; OUTPUT];
    let n = answer(input, &mut out);
    writer.write_all(&out[..n])
}

// What the program prints on an input, into out; answers how many bytes that are.
fn answer(input: &[u8], out: &mut [u8]) -> usize
    requires { 258111 ≤ length out.old }
    ensures { Prints out.old (printed input.now) result out.new }
{
    if input.len() == 0 {
        return listing::put(out, 0, b"bad\n");
    }
    match letters::entry_of(input[0]) {
        None => listing::put(out, 0, b"bad\n"),
        Some(entry) => list(entry, &input[1..], out),
    }
}

fn list(entry: Entry, s: &[u8], out: &mut [u8]) -> usize
    requires { 258111 ≤ length out.old }
    ensures { Prints out.old (listed entry s.now) result out.new }
{
    if s.len() > LONGEST {
        return listing::put(out, 0, b"long\n");
    }
    let mut numbers = zeros();
    let lent = events::WIDTH * s.len();
    let table = &mut numbers[..lent];
    let a = sessions::dissect(entry, s, table);
    listing::append(out, 0, table, a)
}

fn zeros() -> [u32; TABLE]
    ensures { result ≡ replicate 12288 0 }
{
    [0; TABLE]
}
