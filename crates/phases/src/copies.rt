// Copies of the open boundaries: 72 bytes for each level, its length first. A boundary that is too long keeps 71 of its bytes, which tells.
ghost use Rattle.std.specs.Prelude.{◌≡◌, ◌+◌, ◌*◌, ◌≤◌, ◌<◌, length, get_or};
ghost use Rattle.phases.specs.Phasing.{Kept, Slots, slot};

pub const SLOT: usize = 72;

pub const LONGEST: usize = 70;

// Keeps a boundary at a level.
pub fn keep(kept: &mut [u8], level: usize, b: &[u8])
    requires { level * 72 + 72 ≤ length kept.old }
    ensures { Kept kept.old level b.now kept.new }
{
    let n = b.len().min(LONGEST + 1);
    let first = level * SLOT + 1;
    for j in 0..n {
        kept[first + j] = b[j];
    }
    kept[first - 1] = n as u8;
}

// How long the boundary of a level is.
pub fn length_at(kept: &[u8], level: usize) -> usize
    requires { level * 72 < length kept.now }
    ensures { result ≡ get_or kept.now (level * 72) 0 }
{
    kept[level * SLOT] as usize
}

// The boundary of a level.
pub fn boundary(kept: &[u8], level: usize) -> &[u8]
    requires { (level ≤ 7) × Slots kept.now }
    ensures { result.now ≡ slot kept.now level }
{
    let first = level * SLOT + 1;
    &kept[first..first + length_at(kept, level)]
}
