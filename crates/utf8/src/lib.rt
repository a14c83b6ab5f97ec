// Characters in bytes: UTF-8 as RFC 3629 has it, and white space among characters. Stands for Rust's `str` and `char::is_whitespace`.
#![tactic(auto)]

ghost use Rattle.std.specs.Prelude.{◌≡◌, cond, ◌+◌, ◌≤◌, ◌<◌};
ghost use Rattle.utf8.specs.Utf8.{between, octets_of, is_scalar, is_space, is_tail, lawful, sequence, opened, character, characters, is_utf8, dark_lead, dark_end};

// Whether bytes are UTF-8.
pub fn is_utf8(l: &[u8]) -> bool
    ensures { result ≡ is_utf8 l.now }
{
    let mut at = 0;
    while let Some(c) = character(&l[at..]) {
        at += octets_of(c);
    }
    at == l.len()
}

// How many bytes the characters before the first white space have.
pub fn dark_lead(l: &[u8]) -> usize
    ensures { result ≡ dark_lead (characters l.now) }
{
    let mut at = 0;
    while let Some(c) = character(&l[at..]) {
        if is_space(c) {
            return at;
        }
        at += octets_of(c);
    }
    at
}

// How many bytes the characters have up to the last that is no white space.
pub fn dark_end(l: &[u8]) -> usize
    ensures { result ≡ dark_end (characters l.now) }
{
    let mut end = 0;
    let mut at = 0;
    while let Some(c) = character(&l[at..]) {
        let n = octets_of(c);
        if !is_space(c) {
            end = at + n;
        }
        at += n;
    }
    end
}

// Whether a character is white space.
#[tactic(auto, using(crate::proofs::Below::space_below, crate::proofs::Below::above_dark, std::proofs::lemmas::Bool::Decides::nat_tests), unfolding(crate::specs::Utf8::is_space))]
fn is_space(c: u32) -> bool
    ensures { result ≡ is_space c }
{
    match c {
        ..=32 => classes::is_white(c as u8),
        0x85 | 0xa0 | 0x1680 | 0x2000..=0x200a | 0x2028 | 0x2029 | 0x202f | 0x205f | 0x3000 => true,
        _ => false,
    }
}

// How many octets a character has.
#[tactic(auto, unfolding(crate::specs::Utf8::octets_of))]
fn octets_of(c: u32) -> usize
    ensures { result ≡ octets_of c }
{
    match c {
        ..=0x7f => 1,
        ..=0x7ff => 2,
        ..=0xffff => 3,
        _ => 4,
    }
}

// The character that bytes open with.
fn character(l: &[u8]) -> Option<u32>
    ensures { result ≡ character l.now }
{
    let (b, rest) = l.split_first()?;
    opened(*b, rest)
}

// The character by its first octet, with the bytes behind it.
#[tactic(auto, unfolding(crate::specs::Utf8::opened))]
fn opened(b: u8, l: &[u8]) -> Option<u32>
    ensures { result ≡ opened b l.now }
{
    match b {
        0..=0x7f => Some(u32::from(b)),
        0xc0..=0xdf => sequence(l, 1, b - 0xc0),
        0xe0..=0xef => sequence(l, 2, b - 0xe0),
        0xf0..=0xf7 => sequence(l, 3, b - 0xf0),
        _ => None,
    }
}

// The character whose first octet has these bits and that so many tails follow.
fn sequence(l: &[u8], tails: usize, bits: u8) -> Option<u32>
    requires tails_bound { tails ≤ 3 }
    requires bits_bound { bits < 32 }
    ensures { result ≡ sequence (tails + 1) tails bits l.now }
{
    if l.len() < tails {
        return None;
    }
    let mut c = u32::from(bits);
    for i in 0..tails {
        if !is_tail(l[i]) {
            return None;
        }
        c = c * 64 + u32::from(l[i] - 0x80);
    }
    lawful(tails + 1, c)
}

// Whether an octet may stand behind the first.
#[tactic(auto, unfolding(crate::specs::Utf8::is_tail))]
fn is_tail(b: u8) -> bool
    ensures { result ≡ is_tail b }
{
    matches!(b, 0x80..=0xbf)
}

// The character with a number, if it takes n octets.
#[tactic(auto, unfolding(crate::specs::Utf8::lawful))]
fn lawful(n: usize, c: u32) -> Option<u32>
    ensures { result ≡ lawful n c }
{
    (octets_of(c) == n && is_scalar(c)).then_some(c)
}

// Whether a number is a character's.
#[tactic(auto, unfolding(crate::specs::Utf8::is_scalar))]
fn is_scalar(c: u32) -> bool
    ensures { result ≡ is_scalar c }
{
    matches!(c, 0..=0xd7ff | 0xe000..=0x10_ffff)
}
