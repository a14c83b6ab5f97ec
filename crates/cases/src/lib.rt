// Records of the oracle's files (oracle/README.md, 'Formats'), and a pattern that shows which numbers of a table were written.
#![tactic(auto)]

ghost use Rattle.std.specs.Prelude.{◌≡◌, ◌+◌, ◌≤◌, ◌<◌, length, replicate, IfSome};
ghost use Rattle.cases.specs.Cases.{word_of, NextHead, TakesHead, Reads, TakesAll, lent, two, four, head_of, sides_of, guess_of, pattern, only, same_numbers};

use std::io::Read;

// An event's numbers are places, lengths and small marks, never this one.
pub const PATTERN: u32 = 0xA5A5_A5A5;

// The record's letter, how many slots its table has, and how many bytes follow.
#[derive(Clone, Copy)]
pub struct Head {
    pub letter: u8,
    pub slots: usize,
    pub length: usize,
}

// What a record of letter D holds; the server side's payload begins at `server`.
#[derive(Clone, Copy)]
struct Sides {
    protocol: u32,
    client_port: u32,
    server_port: u32,
    client_held: bool,
    server_held: bool,
    server: usize,
}

// Why no case follows: the input is at its end, or what stands there is no case, or its answer can't be told.
#[derive(Clone, Copy, PartialEq, Eq)]
pub enum Ending {
    End,
    Unread,
    Cut,
    Large,
    Broken,
    Touched,
}

impl Ending {
    // What is written of it.
    pub fn word(self) -> &'static [u8]
        ensures { result.now ≡ word_of self }
    {
        match self {
            Ending::End => b"",
            Ending::Unread => b"unread\n",
            Ending::Cut => b"cut\n",
            Ending::Large => b"large\n",
            Ending::Broken => b"broken\n",
            Ending::Touched => b"touched\n",
        }
    }
}

const HEAD: usize = 9;

// Where a record of letter D has the client side's payload.
const CLIENT: usize = 13;

const A_SLOT_PER_BYTE: u32 = 0xFFFF_FFFF;

#[tactic(auto, unfolding(crate::specs::Cases::head_of))]
pub fn head_of(b: &[u8]) -> Head
    requires { 9 ≤ length b.now }
    ensures { result ≡ head_of b.now }
{
    let length = four(b, 5) as usize;
    let slots = match four(b, 1) {
        A_SLOT_PER_BYTE => length,
        n => n as usize,
    };
    Head {
        letter: b[0],
        slots,
        length,
    }
}

// The guess for the bytes of a record of letter D, if it is not broken.
#[tactic(auto, using(crate::proofs::Laws::sides_lie), unfolding(crate::specs::Cases::guess_of, crate::specs::Cases::guessed))]
pub fn guess(b: &[u8]) -> Option<u32>
    ensures { result ≡ guess_of b.now }
{
    let s = sides_of(b)?;
    let guess = direction::dir_confirm(
        s.protocol,
        s.client_port,
        s.server_port,
        s.client_held,
        &b[CLIENT..s.server],
        s.server_held,
        &b[s.server..],
    );
    Some(direction::guess_number(guess))
}

fn sides_of(b: &[u8]) -> Option<Sides>
    ensures { result ≡ sides_of b.now }
{
    if b.len() < CLIENT {
        return None;
    }
    let length = four(b, 9) as usize;
    if b.len() - CLIENT < length {
        return None;
    }
    Some(Sides {
        protocol: four(b, 0),
        client_port: two(b, 4),
        server_port: two(b, 6),
        client_held: b[8] % 2 != 0,
        server_held: b[8] / 2 % 2 != 0,
        server: CLIENT + length,
    })
}

// The head of the next record.
pub fn next_head<R: Read>(reader: &mut R) -> Result<Head, Ending>
    ensures head { NextHead result }
    ensures bytes { TakesHead result (R.remaining reader.old) (R.remaining reader.new) }
{
    let mut head = [0u8; HEAD];
    match input::fill(reader, &mut head) {
        Err(_) => Err(Ending::Unread),
        Ok(0) => Err(Ending::End),
        Ok(HEAD) => Ok(head_of(&head)),
        Ok(_) => Err(Ending::Cut),
    }
}

// Bytes that have to be there.
pub fn read<R: Read>(reader: &mut R, buf: &mut [u8]) -> Result<(), Ending>
    ensures which { Reads result }
    ensures bytes { TakesAll result (R.remaining reader.old) (R.remaining reader.new) buf.new }
{
    let Ok(n) = input::fill(reader, buf) else {
        return Err(Ending::Unread);
    };
    if n < buf.len() {
        return Err(Ending::Cut);
    }
    Ok(())
}

// How many of a table's numbers are lent for so many slots, with some over, which change nothing: as many as a session's length has over. `None` where the table has
// not as many.
#[tactic(auto, unfolding(crate::specs::Cases::lent))]
pub fn lent(numbers: usize, slots: usize, length: usize) -> Option<usize>
    ensures is { result ≡ lent numbers slots length }
    ensures within { IfSome result (λ n. n ≤ numbers) }
{
    if numbers / events::WIDTH < slots {
        return None;
    }
    let lent = events::WIDTH * slots + length % events::WIDTH;
    if numbers < lent {
        return None;
    }
    Some(lent)
}

// Four bytes as a number, the least first.
pub fn four(b: &[u8], at: usize) -> u32
    requires { at + 4 ≤ length b.now }
    ensures { result ≡ four b.now at }
{
    two(b, at) + 65_536 * two(b, at + 2)
}

// Two bytes as a number, the least first.
#[tactic(auto, unfolding(crate::specs::Cases::two))]
fn two(b: &[u8], at: usize) -> u32
    requires { at + 2 ≤ length b.now }
    ensures { (result ≡ two b.now at) × (result < 65536) }
{
    u32::from(b[at]) + 256 * u32::from(b[at + 1])
}

// The pattern into every number.
pub fn fill(t: &mut [u32])
    ensures { t.new ≡ replicate (length t.old) pattern }
{
    t.fill(PATTERN);
}

// Whether every number is still the pattern.
pub fn untouched(t: &[u32]) -> bool
    ensures { result ≡ only pattern t.now }
{
    t.iter().all(|n| *n == PATTERN)
}

// Whether the numbers are those that the bytes hold, four bytes for each.
pub fn same_numbers(t: &[u32], b: &[u8]) -> bool
    ensures { result ≡ same_numbers t.now b.now }
{
    if b.len() / 4 != t.len() {
        return false;
    }
    for i in 0..t.len() {
        if t[i] != four(b, 4 * i) {
            return false;
        }
    }
    true
}
