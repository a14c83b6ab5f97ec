// A session's bytes, no more than the limit.
ghost use Rattle.std.specs.Prelude.{◌≡◌, ◌≤◌, ◌<◌, length, MatchOption};
ghost use Rattle.rules.specs.Sessions.{limit};

const LIMIT: usize = 16_777_216;

#[derive(Clone, Copy)]
pub struct Buffer<'a> {
    pub bytes: &'a [u8],
    ghost within: { length bytes.now ≤ limit },
}

impl<'a> Buffer<'a> {
    pub fn new(bytes: &'a [u8]) -> Option<Self>
        ensures { MatchOption result (limit < length bytes.now) (λ b. b.bytes.now ≡ bytes.now) }
    {
        if LIMIT < bytes.len() {
            return None;
        }
        Some(Buffer { bytes })
    }
}
