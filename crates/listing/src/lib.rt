// The text of a listing, put into a lent run of bytes: a line `kind offset length encoding` for each event, then `result place count`.
#![tactic(auto)]

ghost use Rattle.std.specs.Prelude.{[], ◌∷◌, ◌+◌, ◌*◌, ◌≤◌, length};
ghost use Rattle.events.specs.Events.{numbers, result_number};
ghost use Rattle.events.specs.Table.{final_of, event_at};
ghost use Rattle.listing.specs.Listing.{Pasted, word, line, event_lines, listing};

use events::{Answer, WIDTH};

// Room enough for a line of four numbers, and for one of three.
pub const EVENT_LINE: usize = 84;

pub const LAST_LINE: usize = 63;

// The listing of an answer and its table, behind the first `at` bytes of out; answers where it ends.
pub fn append(out: &mut [u8], at: usize, table: &[u32], answer: Answer) -> usize
    requires { (at + 84 * answer.count + 63 ≤ length out.old) × (4 * answer.count ≤ length table.now) }
    ensures { Pasted out.old at (listing (final_of table.now answer)) result out.new }
{
    let end = event_lines(out, at, table, answer.count);
    last_line(out, end, answer)
}

fn event_lines(out: &mut [u8], at: usize, table: &[u32], n: usize) -> usize
    requires { (at + 84 * n ≤ length out.old) × (4 * n ≤ length table.now) }
    ensures { Pasted out.old at (event_lines n table.now) result out.new }
{
    let mut end = at;
    for i in 0..n {
        end = event_line(out, end, table, i);
    }
    end
}

// The line of event i.
fn event_line(out: &mut [u8], at: usize, table: &[u32], i: usize) -> usize
    requires { (at + 84 ≤ length out.old) × (4 * i + 4 ≤ length table.now) }
    ensures { Pasted out.old at (line (numbers (event_at table.now i))) result out.new }
{
    let from = i * WIDTH;
    let kind = word(out, at, table[from] as u64, b' ');
    let offset = word(out, kind, table[from + 1] as u64, b' ');
    let length = word(out, offset, table[from + 2] as u64, b' ');
    word(out, length, table[from + 3] as u64, b'\n')
}

fn last_line(out: &mut [u8], at: usize, answer: Answer) -> usize
    requires { at + 63 ≤ length out.old }
    ensures { Pasted out.old at (line (result_number answer.result ∷ answer.place ∷ answer.count ∷ [])) result out.new }
{
    let number = events::result_number(answer.result);
    let result = word(out, at, number as u64, b' ');
    let place = word(out, result, answer.place as u64, b' ');
    word(out, place, answer.count as u64, b'\n')
}

// A number's decimal digits, and a byte behind them.
pub fn word(out: &mut [u8], at: usize, n: u64, behind: u8) -> usize
    requires { at + 21 ≤ length out.old }
    ensures { Pasted out.old at (word n behind) result out.new }
{
    let mut digits = [0u8; 20];
    let k = io::decimal(n, &mut digits);
    let end = put(out, at, &digits[..k]);
    out[end] = behind;
    end + 1
}

// A text into out, from `at` on.
pub fn put(out: &mut [u8], at: usize, text: &[u8]) -> usize
    requires { at + length text.now ≤ length out.old }
    ensures { Pasted out.old at text.now result out.new }
{
    let end = at + text.len();
    out[at..end].copy_from_slice(text);
    end
}
