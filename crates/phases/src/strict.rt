// A window, and its lines as the session's settings let them be read.
ghost use Rattle.std.specs.Prelude.{◌≡◌, ◌&&◌, ◌+◌, ◌≤◌, ◌<◌, length};
ghost use Rattle.fields.specs.Common.{part};
ghost use Rattle.reading.specs.Bytes.{ends_with};
ghost use Rattle.reading.specs.Reading.{a_line, crlf};
ghost use Rattle.rules.specs.Sessions.{limit};
ghost use Rattle.rules.specs.Strict.{is_bare};

use crate::{Phase, Spot};
use events::{Log, Outcome};
use reads::{CleanLine, Two};
use rules::Settings;

// `base` is the session's place of the first byte.
#[derive(Clone, Copy)]
pub struct Window<'a> {
    pub settings: Settings,
    pub bytes: &'a [u8],
    pub base: usize,
    ghost within: { base + length bytes.now ≤ limit },
}

impl<'a> Window<'a> {
    ghost use Rattle.phases.specs.Phasing.{LineIs, CleanLineIs, PassIs, PairIs};

    pub fn new(settings: Settings, bytes: &'a [u8], base: usize) -> Self
        requires { base + length bytes.now ≤ limit }
        ensures { (result.settings ≡ settings) × (result.bytes ≡ bytes.entry) × (result.base ≡ base) }
    {
        Self {
            settings,
            bytes,
            base,
        }
    }

    // The phase waits where no line is finished.
    pub fn line(self, p: usize, phase: Phase, log: Log) -> Result<usize, Spot>
        requires { p ≤ length self.bytes.now }
        ensures { LineIs self.entry.settings self.entry.bytes.now self.entry.base p phase log result }
    {
        let Ok(end) = reads::line(self.bytes, p) else {
            return Err(Spot {
                phase,
                taken: p,
                log,
            });
        };
        self.pass(p, end, log)?;
        Ok(end)
    }

    pub fn clean_line(self, p: usize, phase: Phase, log: Log) -> Result<CleanLine, Spot>
        requires { p ≤ length self.bytes.now }
        ensures { CleanLineIs self.entry.settings self.entry.bytes.now self.entry.base p phase log result }
    {
        let Ok(line) = reads::clean_line(self.bytes, p) else {
            return Err(Spot {
                phase,
                taken: p,
                log,
            });
        };
        self.pass(p, line.end, log)?;
        Ok(line)
    }

    pub fn two_bytes(self, p: usize, phase: Phase, log: Log) -> Result<Two, Spot>
        requires { p ≤ length self.bytes.now }
        ensures { PairIs self.entry.bytes.now p phase log result }
    {
        reads::two_bytes(self.bytes, p).map_err(|_| Spot {
            phase,
            taken: p,
            log,
        })
    }

    // With the strict setting, a line from p up to e that does not end in CRLF stops the session where it begins, and the window takes nothing.
    fn pass(self, p: usize, e: usize, log: Log) -> Result<(), Spot>
        requires { (p < e) × (e ≤ length self.bytes.now) }
        ensures { PassIs self.entry.settings self.entry.bytes.now self.entry.base p e log result }
    {
        if self.settings.strict && bare(self.bytes, p, e) {
            return Err(Spot {
                phase: Phase::Over(Outcome::BareLf, self.base + p),
                taken: 0,
                log,
            });
        }
        Ok(())
    }
}

// Of a line of four bytes or more one byte tells, where its last is LF; and it is no dot line, so that the compiler asks no more of it.
fn bare(w: &[u8], p: usize, e: usize) -> bool
    requires { (p < e) × (e ≤ length w.now) }
    ensures { result ≡ is_bare a_line (part w.now p e) }
{
    if e - p < 4 {
        return !ends_in_crlf(&w[p..e]);
    }
    if w[e - 1] != b'\n' {
        return true;
    }
    w[e - 2] != b'\r'
}

fn ends_in_crlf(l: &[u8]) -> bool
    ensures { result ≡ ends_with crlf l.now }
{
    reading::ends_with(l, b"\r\n")
}
