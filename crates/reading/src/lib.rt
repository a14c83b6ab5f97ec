// Reading: lines, delimiters and words in a part of the buffer. Stands for `PktStrm` and its readers.
// A read answers the place behind what it reads, or that it needs bytes beyond the end.
#![tactic(auto)]

ghost use Rattle.std.specs.Prelude.{◌≡◌, ◌&&◌, ◌-◌, ℕ, Bool, [], ◌∷◌, ◌+◌, ◌<◌, ◌≤◌, length, take, drop};
ghost use Rattle.reading.specs.Blocks.{dashed, Computes, Passed, Next, Last, last_stands};
ghost use Rattle.reading.specs.Bytes.{starts_with, same, ends_with, raised, first, first_place, found, holds, stands, contains};
ghost use Rattle.reading.specs.Reading.{clean, drop_end, dash, may_stand, delimits, reach, a_line};

// Places that are tested at once; many more where few are expected to pass.
const BLOCK: usize = 16;

const WIDE: usize = 64;

// Bytes of a buffer: where they begin, and how many they are.
#[derive(Clone, Copy)]
pub struct Span {
    pub at: usize,
    pub len: usize,
}

impl Span {
    // The bytes that it names.
    pub fn of(self, s: &[u8]) -> &[u8]
        requires { self.at + self.len ≤ length s.now }
        ensures { result.now ≡ take self.len (drop self.at s.now) }
    {
        &s[self.at..self.at + self.len]
    }
}

// The place behind the first line.
pub fn line_end(s: &[u8]) -> Option<usize>
    ensures { result ≡ reach a_line s.now }
{
    Some(find_byte(s, b'\n')? + 1)
}

// The first place that holds a byte.
pub fn find_byte(s: &[u8], b: u8) -> Option<usize>
    ensures { result ≡ first_place (holds b s.now) s.now }
{
    seek(s, 0, &|p| s[p] == b)
}

// The first place from `from` on that passes the test.
fn seek<F: Fn(usize) -> bool>(s: &[u8], from: usize, test: &F) -> Option<usize>
    requires on { from ≤ length s.now }
    requires callable { (k : ℕ) → from ≤ k → k < length s.now → F.pre test.now k }
    ensures { (t : ℕ → Bool) → Computes (F.post test.now) t from (length s.now) → result ≡ first t from (length s.now - from) }
{
    for p in skip::<BLOCK, F>(s, from, test)..s.len() {
        if test(p) {
            return Some(p);
        }
    }
    None
}

// Past blocks of N places of which none passes the test.
fn skip<const N: usize, F: Fn(usize) -> bool>(s: &[u8], from: usize, test: &F) -> usize
    requires some { 0 < N }
    requires on { from ≤ length s.now }
    requires callable { (k : ℕ) → from ≤ k → k < length s.now → F.pre test.now k }
    ensures place { (from ≤ result) × (result ≤ length s.now) }
    ensures none { (t : ℕ → Bool) → Computes (F.post test.now) t from (length s.now) → Passed t s.now from result }
{
    let mut p = from;
    while N <= s.len() - p && !any_of::<N, F>(s, p, test) {
        p += N;
    }
    p
}

// The same back from the end.
fn skip_back<const N: usize, F: Fn(usize) -> bool>(s: &[u8], test: &F) -> usize
    requires some { 0 < N }
    requires callable { (k : ℕ) → k < length s.now → F.pre test.now k }
    ensures place { result ≤ length s.now }
    ensures none { (t : ℕ → Bool) → Computes (F.post test.now) t 0 (length s.now) → Passed t s.now result (length s.now) }
{
    let mut p = s.len();
    while N <= p && !any_of::<N, F>(s, p - N, test) {
        p -= N;
    }
    p
}

// Whether one of the N places from p on passes the test: a loop without a way out, so that the compiler may test them all at once.
fn any_of<const N: usize, F: Fn(usize) -> bool>(s: &[u8], p: usize, test: &F) -> bool
    requires within { p + N ≤ length s.now }
    requires callable { (k : ℕ) → p ≤ k → k < p + N → F.pre test.now k }
    ensures { (t : ℕ → Bool) → Computes (F.post test.now) t p (p + N) → result ≡ found (first t p N) }
{
    let mut seen = false;
    for i in 0..N {
        seen = seen | test(p + i);
    }
    seen
}

// The place behind the last b; 0 where there is none.
pub fn behind_last(s: &[u8], b: u8) -> usize
    ensures { Last (holds b s.now) s.now result }
{
    let end = skip_back::<BLOCK, _>(s, &|p| s[p] == b);
    for p in (0..end).rev() {
        if s[p] == b {
            return p + 1;
        }
    }
    0
}

// The length of a line without its LF and one CR before it.
#[tactic(auto, unfolding(crate::specs::Reading::clean))]
pub fn clean_end(l: &[u8]) -> usize
    ensures { result ≡ length (clean l.now) }
{
    drop_end(drop_end(l, b"\n"), b"\r").len()
}

// l without one w at its end.
#[tactic(auto, using(crate::proofs::Library::stripped_is))]
fn drop_end<'a>(l: &'a [u8], w: &[u8]) -> &'a [u8]
    ensures { result.now ≡ drop_end w.now l.now }
{
    l.strip_suffix(w).unwrap_or(l)
}

// Whether l opens with the word w.
// `==` tells most other lines by their first bytes, without a call.
#[tactic(auto, using(crate::proofs::Library::prefix_is, crate::proofs::Library::short_not))]
pub fn starts_with(l: &[u8], w: &[u8]) -> bool
    ensures { result ≡ starts_with w.now l.now }
{
    w.len() <= l.len() && &l[..w.len()] == w
}

// Whether l opens with the word w in any case.
#[tactic(auto, using(crate::proofs::Library::short_alike))]
pub fn starts_with_any_case(l: &[u8], w: &[u8]) -> bool
    ensures { result ≡ starts_with (raised w.now) (raised l.now) }
{
    w.len() <= l.len() && (0..w.len()).all(|k| classes::upper(l[k]) == classes::upper(w[k]))
}

// Whether l is the word w.
#[tactic(auto, using(crate::proofs::Library::equals_is))]
pub fn equals(l: &[u8], w: &[u8]) -> bool
    ensures { result ≡ same w.now l.now }
{
    l == w
}

// Whether l is the word w in any case.
pub fn equals_any_case(l: &[u8], w: &[u8]) -> bool
    ensures { result ≡ same (raised w.now) (raised l.now) }
{
    l.len() == w.len() && starts_with_any_case(l, w)
}

// Whether l ends with the word w.
#[tactic(auto, using(crate::proofs::Library::closes_is))]
pub fn ends_with(l: &[u8], w: &[u8]) -> bool
    ensures { result ≡ ends_with w.now l.now }
{
    l.ends_with(w)
}

// The first place where the word w stands.
pub fn find(l: &[u8], w: &[u8]) -> Option<usize>
    ensures { result ≡ first_place (stands w.now l.now) l.now }
{
    (0..l.len()).find(|p| starts_with(&l[*p..], w))
}

// Whether the word w stands somewhere in l, in any case.
pub fn contains_any_case(l: &[u8], w: &[u8]) -> bool
    ensures { result ≡ contains (raised w.now) (raised l.now) }
{
    (0..l.len()).any(|p| starts_with_any_case(&l[p..], w))
}

// The first place of a region where a delimiter for the boundary b stands.
pub fn delimiter(s: &[u8], b: &[u8]) -> Option<usize>
    ensures { result ≡ first_place (delimits b.now s.now) s.now }
{
    let mut p = 0;
    while p < s.len() {
        if opens(s, p) && stands(s, p + 2, b) {
            return Some(p);
        }
        p = next_dash(s, p + 1);
    }
    None
}

// Whether b stands at a place.
#[tactic(auto, using(crate::proofs::Words::rest_is, crate::proofs::Matching::starts_not), unfolding(crate::specs::Bytes::stands))]
fn stands(s: &[u8], at: usize, b: &[u8]) -> bool
    requires { at ≤ length s.now }
    ensures { result ≡ stands b.now s.now at }
{
    last_stands(s, at, b) && starts_with(&s[at..], b)
}

// Whether the last byte of b stands where it would if b stood at a place: one look tells most that only resemble it.
#[tactic(auto, unfolding(crate::specs::Blocks::last_stands))]
fn last_stands(s: &[u8], at: usize, b: &[u8]) -> bool
    requires { at ≤ length s.now }
    ensures { result ≡ last_stands b.now (drop at s.now) }
{
    let n = b.len();
    n == 0 || (n <= s.len() - at && s[at + n - 1] == b[n - 1])
}

// From p on, the first place that holds a hyphen behind an LF, or the end.
fn next_dash(s: &[u8], from: usize) -> usize
    requires { (0 < from) × (from ≤ length s.now) }
    ensures { Next (dashed s.now) s.now from result }
{
    let dashed = |p| (s[p] == b'-') & (s[p - 1] == b'\n');
    seek(s, skip::<WIDE, _>(s, from, &dashed), &dashed).unwrap_or(s.len())
}

// Whether p is a place for a delimiter and holds two hyphens.
#[tactic(auto, using(crate::proofs::Words::rest_is), unfolding(crate::specs::Reading::may_stand))]
fn opens(s: &[u8], p: usize) -> bool
    requires { p < length s.now }
    ensures { result ≡ (starts_with (dash []) (drop p s.now) && may_stand s.now p) }
{
    starts_with(&s[p..], b"--") && (p == 0 || ends_with(&s[..p], b"\r\n"))
}
