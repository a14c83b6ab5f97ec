// What a line of a POP3 server says. Ports `stls_answer` and `retr_answer` of pop3.rs.
ghost use Rattle.std.specs.Prelude.{◌≡◌, ◌*◌, ◌<◌, leb, length, get_or};
ghost use Rattle.fields.specs.Pop3.{stls_answer, retr_answer, numbered, octets, octets_follow};
ghost use Rattle.fields.specs.Runs.{lead, worth, from_last};
ghost use Rattle.classes.specs.Classes.{is_digit};

use crate::runs::leading;

// The length of `+OK`.
const OK: usize = 3;

// A lead that is not made up for: of any bytes none is worth more than nine times as much. Among digits 1 would be far.
const FAR: u8 = 23;

// Whether the server lets TLS begin.
pub fn stls_answer(l: &[u8]) -> bool
    ensures { result ≡ stls_answer l.now }
{
    reading::starts_with(l, b"+OK") && reading::contains_any_case(&l[OK..], b"tls")
}

// Whether a mail follows.
pub fn retr_answer(l: &[u8]) -> bool
    ensures { result ≡ retr_answer l.now }
{
    if !reading::starts_with(l, b"+OK") {
        return false;
    }
    let rest = &l[OK..];
    let start = leading(rest, classes::is_pop_white);
    0 < start && numbered(&rest[start..])
}

// Whether a number of octets opens it.
fn numbered(l: &[u8]) -> bool
    ensures { result ≡ numbered l.now }
{
    let digits = leading(l, classes::is_digit);
    if digits == 0 {
        return false;
    }
    octets(&l[..digits]) && octets_follow(&l[digits..])
}

// Whether digits are a number of octets. Zeros in front are dropped.
#[tactic(auto, using(crate::proofs::Octets::octets_by, crate::proofs::Compared::dropped_on))]
pub fn octets(digits: &[u8]) -> bool
    ensures { result ≡ octets digits.now }
{
    for (zeros, b) in digits.iter().enumerate() {
        if b'0' < *b {
            return at_most(&digits[zeros..], b"4294967295");
        }
    }
    true
}

// Whether a number without zeros in front is at most another one in digits. A longer one is larger. Any other is compared with it digit by digit, the last with the
// last, and 0 where it has no digit; `ahead` is by how much the other is ahead so far.
#[tactic(auto, using(crate::proofs::Compared::longer))]
fn at_most(number: &[u8], most: &[u8]) -> bool
    requires { (48 < get_or number.now 0 0) × (lead is_digit most.now ≡ length most.now) }
    ensures { result ≡ leb (worth number.now) (worth most.now) }
{
    if most.len() < number.len() {
        return false;
    }
    let mut ahead = 0;
    for left in (0..most.len()).rev() {
        let have = tenfold(ahead) + from_last(most, left);
        let due = from_last(number, left);
        if have < due {
            return false;
        }
        ahead = have - due;
        if FAR <= ahead {
            return true;
        }
    }
    true
}

// Ten times a lead that is not far, without a multiplication.
fn tenfold(n: u8) -> u8
    requires { n < 23 }
    ensures { result ≡ n * 10 }
{
    let five = n + n + n + n + n;
    five + five
}

// What the digit is worth that k others follow; 0 where there is none.
#[tactic(auto, unfolding(crate::specs::Runs::from_last))]
fn from_last(l: &[u8], k: usize) -> u8
    ensures { result ≡ from_last k l.now }
{
    if l.len() <= k {
        return 0;
    }
    l[l.len() - (k + 1)].saturating_sub(b'0')
}

// Whether white space and `octets` open it.
#[tactic(auto, unfolding(crate::specs::Pop3::octets_follow))]
fn octets_follow(l: &[u8]) -> bool
    ensures { result ≡ octets_follow l.now }
{
    let white = leading(l, classes::is_pop_white);
    0 < white && reading::starts_with(&l[white..], b"octets")
}
