// Byte classes: one table of 256 entries, each a set of six marks.
// A byte above 127 has no mark.
#![tactic(auto)]

ghost use Rattle.std.specs.Prelude.{◌≡◌};
ghost use Rattle.classes.specs.Classes.{Marked, is_white, is_blank, is_pop_white, is_digit, is_letter, is_upper, upper_of};

const WHITE: u8 = 1 << 0;

const BLANK: u8 = 1 << 1;

const POP_WHITE: u8 = 1 << 2;

const DIGIT: u8 = 1 << 3;

const LETTER: u8 = 1 << 4;

const UPPER: u8 = 1 << 5;

const CLASSES: [u8; 256] = [
    0,
    0,
    0,
    0,
    0,
    0,
    0,
    0,
    0,
    WHITE | BLANK | POP_WHITE, // 9
    WHITE | POP_WHITE, // 10
    WHITE, // 11
    WHITE, // 12
    WHITE | POP_WHITE, // 13
    0,
    0,
    0,
    0,
    0,
    0,
    0,
    0,
    0,
    0,
    0,
    0,
    0,
    0,
    0,
    0,
    0,
    0,
    WHITE | BLANK | POP_WHITE, // 32
    0,
    0,
    0,
    0,
    0,
    0,
    0,
    0,
    0,
    0,
    0,
    0,
    0,
    0,
    0,
    DIGIT, // 48
    DIGIT,
    DIGIT,
    DIGIT,
    DIGIT,
    DIGIT,
    DIGIT,
    DIGIT,
    DIGIT,
    DIGIT,
    0,
    0,
    0,
    0,
    0,
    0,
    0,
    LETTER | UPPER, // 65
    LETTER | UPPER,
    LETTER | UPPER,
    LETTER | UPPER,
    LETTER | UPPER,
    LETTER | UPPER,
    LETTER | UPPER,
    LETTER | UPPER,
    LETTER | UPPER,
    LETTER | UPPER,
    LETTER | UPPER,
    LETTER | UPPER,
    LETTER | UPPER,
    LETTER | UPPER,
    LETTER | UPPER,
    LETTER | UPPER,
    LETTER | UPPER,
    LETTER | UPPER,
    LETTER | UPPER,
    LETTER | UPPER,
    LETTER | UPPER,
    LETTER | UPPER,
    LETTER | UPPER,
    LETTER | UPPER,
    LETTER | UPPER,
    LETTER | UPPER,
    0,
    0,
    0,
    0,
    0,
    0,
    LETTER, // 97
    LETTER,
    LETTER,
    LETTER,
    LETTER,
    LETTER,
    LETTER,
    LETTER,
    LETTER,
    LETTER,
    LETTER,
    LETTER,
    LETTER,
    LETTER,
    LETTER,
    LETTER,
    LETTER,
    LETTER,
    LETTER,
    LETTER,
    LETTER,
    LETTER,
    LETTER,
    LETTER,
    LETTER,
    LETTER,
    0,
    0,
    0,
    0,
    0,
    0,
    0,
    0,
    0,
    0,
    0,
    0,
    0,
    0,
    0,
    0,
    0,
    0,
    0,
    0,
    0,
    0,
    0,
    0,
    0,
    0,
    0,
    0,
    0,
    0,
    0,
    0,
    0,
    0,
    0,
    0,
    0,
    0,
    0,
    0,
    0,
    0,
    0,
    0,
    0,
    0,
    0,
    0,
    0,
    0,
    0,
    0,
    0,
    0,
    0,
    0,
    0,
    0,
    0,
    0,
    0,
    0,
    0,
    0,
    0,
    0,
    0,
    0,
    0,
    0,
    0,
    0,
    0,
    0,
    0,
    0,
    0,
    0,
    0,
    0,
    0,
    0,
    0,
    0,
    0,
    0,
    0,
    0,
    0,
    0,
    0,
    0,
    0,
    0,
    0,
    0,
    0,
    0,
    0,
    0,
    0,
    0,
    0,
    0,
    0,
    0,
    0,
    0,
    0,
    0,
    0,
    0,
    0,
    0,
    0,
    0,
    0,
    0,
    0,
    0,
    0,
    0,
    0,
    0,
    0,
    0,
    0,
    0,
    0,
    0,
    0,
    0,
    0,
];

// The marks of a byte.
fn class(b: u8) -> u8
    ensures { Marked b result }
{
    CLASSES[b as usize]
}

// White space: 9 to 13 and 32.
pub fn is_white(b: u8) -> bool
    ensures { result ≡ is_white b }
{
    class(b) & WHITE != 0
}

// Blank: 9 and 32.
pub fn is_blank(b: u8) -> bool
    ensures { result ≡ is_blank b }
{
    class(b) & BLANK != 0
}

// Pop white: 9, 10, 13 and 32.
pub fn is_pop_white(b: u8) -> bool
    ensures { result ≡ is_pop_white b }
{
    class(b) & POP_WHITE != 0
}

pub fn is_digit(b: u8) -> bool
    ensures { result ≡ is_digit b }
{
    class(b) & DIGIT != 0
}

pub fn is_letter(b: u8) -> bool
    ensures { result ≡ is_letter b }
{
    class(b) & LETTER != 0
}

pub fn is_upper(b: u8) -> bool
    ensures { result ≡ is_upper b }
{
    class(b) & UPPER != 0
}

// A letter's upper case; any other byte unchanged.
#[tactic(auto, unfolding(crate::specs::Classes::upper_of, crate::specs::Classes::is_letter, crate::specs::Classes::is_upper))]
pub fn upper(b: u8) -> u8
    ensures { result ≡ upper_of b }
{
    match b {
        b'a'..=b'z' => b - 32,
        _ => b,
    }
}
