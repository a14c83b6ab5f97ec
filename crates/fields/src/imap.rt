// What a line of an IMAP client says. Ports `append` and the test of `append_ok` of imap.rs.
ghost use Rattle.std.specs.Prelude.{◌≡◌};
ghost use Rattle.classes.specs.Classes.{is_white};
ghost use Rattle.fields.specs.Runs.{last_place, through};
ghost use Rattle.fields.specs.Imap.{tag, is_append, append_follows, dark, text_end, braced, size_of, append_size, holds_colon};

use crate::runs::{decimal, find_last, leading, trailing};

// Whether the line is an append.
pub fn append(l: &[u8]) -> bool
    ensures { result ≡ is_append l.now }
{
    let n = tag(l);
    0 < n && append_follows(&l[n..])
}

// The length of the tag. Only a byte above 127 in it asks for the line's characters.
#[tactic(auto, using(crate::proofs::Texts::tagged_none_yet, crate::proofs::Texts::tagged_on, crate::proofs::Texts::tagged_stop, crate::proofs::Texts::tagged_all))]
fn tag(l: &[u8]) -> usize
    ensures { result ≡ tag l.now }
{
    for (i, b) in l.iter().enumerate() {
        if 127 < *b {
            return wide_tag(l);
        }
        if ends_tag(*b) {
            return i;
        }
    }
    l.len()
}

// Whether a byte is white. The class table is asked only of bytes that may be: most of a tag is not.
#[tactic(auto, using(utf8::proofs::Below::above_dark))]
fn ends_tag(b: u8) -> bool
    ensures { result ≡ is_white b }
{
    b <= 32 && classes::is_white(b)
}

// The same as `tag`, whatever stands in it.
#[tactic(auto, unfolding(crate::specs::Imap::tag))]
fn wide_tag(l: &[u8]) -> usize
    ensures { result ≡ tag l.now }
{
    if utf8::is_utf8(l) {
        utf8::dark_lead(l)
    } else {
        leading(l, |b| !classes::is_white(b))
    }
}

// Whether blanks and `APPEND` open it.
fn append_follows(l: &[u8]) -> bool
    ensures { result ≡ append_follows l.now }
{
    let blanks = leading(l, classes::is_blank);
    0 < blanks && reading::starts_with(&l[blanks..], b"APPEND")
}

// The size of the literal that an append announces, 0 where it tells none.
pub fn append_size(l: &[u8]) -> u64
    ensures { result ≡ append_size l.now }
{
    size_of(&l[..text_end(l)])
}

// The length of a line without its trailing white space. Only a byte above 127 before it asks for the line's characters.
fn text_end(l: &[u8]) -> usize
    ensures { result ≡ text_end l.now }
{
    let n = dark_end(l);
    if n == 0 || l[n - 1] <= 127 {
        return n;
    }
    if utf8::is_utf8(l) {
        utf8::dark_end(l)
    } else {
        n
    }
}

// The same by bytes: up to the last that is not white.
fn dark_end(l: &[u8]) -> usize
    ensures { result ≡ through (last_place (dark l.now) l.now) }
{
    let Some(p) = trailing(l, |b| !classes::is_white(b)) else {
        return 0;
    };
    p + 1
}

// The size that stands in the last braces.
fn size_of(l: &[u8]) -> u64
    ensures { result ≡ size_of l.now }
{
    if !reading::ends_with(l, b"}") {
        return 0;
    }
    let Some(p) = find_last(l, b'{') else {
        return 0;
    };
    braced(&l[p + 1..])
}

// What digits up to a closing brace are worth, 0 where they are not that or too big.
fn braced(l: &[u8]) -> u64
    ensures { result ≡ braced l.now }
{
    let digits = leading(l, classes::is_digit);
    if digits == 0 || !reading::starts_with(&l[digits..], b"}") {
        return 0;
    }
    decimal(&l[..digits], u64::MAX).unwrap_or(0)
}

// Whether a line holds a colon.
#[tactic(auto, using(crate::proofs::Texts::found_some), unfolding(crate::specs::Imap::holds_colon, reading::specs::Bytes::contains))]
pub fn has_colon(l: &[u8]) -> bool
    ensures { result ≡ holds_colon l.now }
{
    reading::find(l, b":").is_some()
}
