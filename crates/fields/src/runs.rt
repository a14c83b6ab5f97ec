// Runs of bytes at a line's start or end, and numbers written in digits. Stands for the parsers of `nom`.
ghost use Rattle.std.specs.Prelude.{◌≡◌, ◌-◌, ℕ, Bool, get_or};
ghost use Rattle.reading.specs.Bytes.{holds};
ghost use Rattle.fields.specs.Runs.{Tests, lead, last_place, worth, up_to};

// How many bytes that pass the test the line opens with.
pub fn leading<F: Fn(u8) -> bool>(l: &[u8], test: F) -> usize
    requires { F.IsAlwaysCallable test }
    ensures { (t : ℕ → Bool) → Tests (F.post test) t → result ≡ lead t l.now }
{
    for (i, b) in l.iter().enumerate() {
        if !test(*b) {
            return i;
        }
    }
    l.len()
}

// The last place whose byte passes the test.
pub(crate) fn trailing<F: Fn(u8) -> bool>(l: &[u8], test: F) -> Option<usize>
    requires { F.IsAlwaysCallable test }
    ensures { (t : ℕ → Bool) → Tests (F.post test) t → result ≡ last_place (λ p. t (get_or l.now p 0)) l.now }
{
    for p in (0..l.len()).rev() {
        if test(l[p]) {
            return Some(p);
        }
    }
    None
}

// The last place that holds a byte.
#[tactic(auto, using(crate::proofs::Last::found_last))]
pub fn find_last(l: &[u8], b: u8) -> Option<usize>
    ensures { result ≡ last_place (holds b l.now) l.now }
{
    reading::behind_last(l, b).checked_sub(1)
}

// What digits are worth, if that is at most max. No sum is made that could be more.
#[tactic(auto, using(crate::proofs::Worth::added_over))]
pub fn decimal(digits: &[u8], max: u64) -> Option<u64>
    ensures { result ≡ up_to max (worth digits.now) }
{
    let mut n = 0;
    for b in digits {
        let d = digit(*b);
        if max < d {
            return None;
        }
        if (max - d) / 10 < n {
            return None;
        }
        n = n * 10 + d;
    }
    Some(n)
}

// What one digit is worth.
fn digit(b: u8) -> u64
    ensures { result ≡ b - 48 }
{
    u64::from(b.saturating_sub(b'0'))
}
