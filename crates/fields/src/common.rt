// Header lines: encoding, boundary, and the header scan's step. Ports the line tests of common.rs.
ghost use Rattle.std.specs.Prelude.{◌≡◌, ◌≤◌, length};
ghost use Rattle.fields.specs.Common.{transfer_encoding, encoding_named, content_type, bare_parameter, named, type_field, bare_name, typed, content_type_ext, quoted, unquoted};
ghost use Rattle.fields.specs.Common.{dash_bdry, rank, first_encoding, said, scanned, known_of, part, Says, Inside};

use crate::runs::leading;
use events::Encoding;
use reading::Span;

// The lengths of `Content-Transfer-Encoding:`, of `Content-Type: `, of `boundary=` and `boundary="`, and of these two behind a tab.
const ENCODING_FIELD: usize = 26;

const TYPE_FIELD: usize = 14;

const BARE_NAME: usize = 9;

const QUOTED_NAME: usize = 10;

const FOLDED_BARE: usize = 1 + BARE_NAME;

const FOLDED_QUOTED: usize = 1 + QUOTED_NAME;

#[derive(Clone, Copy)]
pub enum ContentType {
    Other,
    Plain,
    Bounded(Span),
}

// What a header's lines have said so far.
#[derive(Clone, Copy)]
pub struct Scan {
    pub encoding: Encoding,
    pub seen: bool,
    pub boundary: Option<Span>,
}

// What is known after the line from `at` up to `end` of the header h.
pub fn scan_line(h: &[u8], at: usize, end: usize, known: Scan) -> Scan
    requires { (at ≤ end) × (end ≤ length h.now) × Inside h.now known.boundary }
    ensures { Says h.now (scanned (known_of h.now known) (part h.now at end)) result }
{
    let encoding = first_encoding(known.encoding, &h[at..end]);
    if known.boundary.is_some() {
        return Scan { encoding, ..known };
    }
    match said(&h[at..end], known.seen) {
        ContentType::Other => Scan { encoding, ..known },
        ContentType::Plain => Scan {
            encoding,
            seen: true,
            ..known
        },
        ContentType::Bounded(b) => Scan {
            encoding,
            seen: true,
            boundary: Some(Span {
                at: at + b.at,
                len: b.len,
            }),
        },
    }
}

// What a line says of the type. Where Content-Type was seen without a boundary, a later line may supply it.
#[tactic(auto, unfolding(crate::specs::Common::said, crate::specs::Common::supplied))]
fn said(l: &[u8], seen: bool) -> ContentType
    ensures { result ≡ said seen l.now }
{
    if seen {
        if let Some(b) = content_type_ext(l) {
            return ContentType::Bounded(b);
        }
    }
    content_type(l)
}

// The first valid encoding counts; without one, that a line was not recognised. Behind a valid one no line is looked at.
#[tactic(auto, using(crate::proofs::Encodings::stays, crate::proofs::Encodings::keeps, crate::proofs::Encodings::counts))]
pub fn first_encoding(e: Encoding, l: &[u8]) -> Encoding
    ensures { result ≡ first_encoding e l.now }
{
    if 1 < rank(e) {
        return e;
    }
    let said = transfer_encoding(l);
    if 0 < rank(said) {
        return said;
    }
    e
}

fn rank(e: Encoding) -> u32
    ensures { result ≡ rank e }
{
    match e {
        Encoding::Unsaid => 0,
        Encoding::Unrecognised => 1,
        _ => 2,
    }
}

pub fn transfer_encoding(l: &[u8]) -> Encoding
    ensures { result ≡ transfer_encoding l.now }
{
    if !reading::starts_with_any_case(l, b"Content-Transfer-Encoding:") {
        return Encoding::Unsaid;
    }
    let name = ENCODING_FIELD + leading(&l[ENCODING_FIELD..], |b| b == b' ');
    encoding_named(&l[name..])
}

// One of the five names and CRLF, or not recognised.
#[tactic(auto, unfolding(crate::specs::Common::encoding_named))]
fn encoding_named(l: &[u8]) -> Encoding
    ensures { result ≡ encoding_named l.now }
{
    if reading::equals_any_case(l, b"7bit\r\n") {
        Encoding::Bit7
    } else if reading::equals_any_case(l, b"8bit\r\n") {
        Encoding::Bit8
    } else if reading::equals_any_case(l, b"binary\r\n") {
        Encoding::Binary
    } else if reading::equals_any_case(l, b"quoted-printable\r\n") {
        Encoding::QuotedPrintable
    } else if reading::equals_any_case(l, b"base64\r\n") {
        Encoding::Base64
    } else {
        Encoding::Unrecognised
    }
}

pub fn content_type(l: &[u8]) -> ContentType
    ensures { result ≡ content_type l.now }
{
    if !reading::starts_with(l, b"Content-Type: ") {
        return ContentType::Other;
    }
    match reading::find(&l[TYPE_FIELD..], b"boundary=\"") {
        Some(p) => as_type(quoted(l, TYPE_FIELD + p + QUOTED_NAME)),
        None => bare_parameter(l),
    }
}

// The first `boundary=` behind the field's name.
fn bare_parameter(l: &[u8]) -> ContentType
    requires { length type_field ≤ length l.now }
    ensures { result ≡ bare_parameter l.now (named bare_name l.now) }
{
    match reading::find(&l[TYPE_FIELD..], b"boundary=") {
        Some(p) => as_type(unquoted(l, TYPE_FIELD + p + BARE_NAME)),
        None => ContentType::Plain,
    }
}

#[tactic(auto, unfolding(crate::specs::Common::typed))]
fn as_type(b: Option<Span>) -> ContentType
    ensures { result ≡ typed b }
{
    match b {
        Some(b) => ContentType::Bounded(b),
        None => ContentType::Other,
    }
}

#[tactic(auto, using(reading::proofs::Words::starts_long), unfolding(crate::specs::Common::content_type_ext))]
pub fn content_type_ext(l: &[u8]) -> Option<Span>
    ensures { result ≡ content_type_ext l.now }
{
    if reading::starts_with(l, b"\tboundary=\"") {
        return quoted(l, FOLDED_QUOTED);
    }
    if reading::starts_with(l, b"\tboundary=") {
        return unquoted(l, FOLDED_BARE);
    }
    None
}

// From o up to a required closing quote.
fn quoted(l: &[u8], o: usize) -> Option<Span>
    requires { o ≤ length l.now }
    ensures { result ≡ quoted l.now o }
{
    let len = reading::find_byte(&l[o..], b'"')?;
    Some(Span { at: o, len })
}

// From o up to ; space CR or the end.
fn unquoted(l: &[u8], o: usize) -> Option<Span>
    requires { o ≤ length l.now }
    ensures { result ≡ unquoted l.now o }
{
    let len = leading(&l[o..], |b| !matches!(b, b';' | b' ' | b'\r'));
    Some(Span { at: o, len })
}

// A line of two hyphens and the boundary that ends in CRLF.
#[tactic(auto, using(crate::proofs::Bdrys::dash_bdry_is, reading::proofs::Words::rest_is, reading::proofs::Words::starts_long))]
pub fn dash_bdry(l: &[u8], b: &[u8]) -> bool
    ensures { result ≡ dash_bdry b.now l.now }
{
    if !reading::starts_with(l, b"--") {
        return false;
    }
    reading::starts_with(&l[2..], b) && reading::ends_with(l, b"\r\n")
}
