// Which way a line runs, guessed from both ports and each side's first payload. Ports `dir_confirm` of smtp.rs, pop3.rs and imap.rs, and `clt_cmd`.
// Answers as given, swapped, unknown, or that the protocol is another.
#![tactic(auto)]

ghost use Rattle.std.specs.Prelude.{◌≡◌, ◌||◌, ℕ, ◌≤◌, ◌<◌, length};
ghost use Rattle.classes.specs.Classes.{is_letter, is_digit};
ghost use Rattle.direction.specs.Direction.{guess_number, side, seen, protocol_of, guess, confirm, port_of, by_payload, greets, commands, clt_cmd, command_at, is_tag, is_tag_byte};

#[derive(Clone, Copy, PartialEq, Eq)]
pub enum Protocol {
    Smtp,
    Pop3,
    Imap,
}

#[derive(Clone, Copy, PartialEq, Eq)]
pub enum Guess {
    AsGiven = 0,
    Swapped = 1,
    Unknown = 2,
    OtherProtocol = 3,
}

// A side's port, and its first payload if that is held.
#[derive(Clone, Copy)]
struct End<'a> {
    port: u32,
    payload: Option<&'a [u8]>,
}

impl Protocol {
    // By document 01's number.
    #[tactic(auto, unfolding(crate::specs::Direction::protocol_of))]
    fn of(n: u32) -> Option<Self>
        ensures { result ≡ protocol_of n }
    {
        match n {
            1 => Some(Self::Smtp),
            2 => Some(Self::Pop3),
            3 => Some(Self::Imap),
            _ => None,
        }
    }

    fn port(self) -> u32
        ensures { result ≡ port_of self }
    {
        match self {
            Self::Smtp => 25,
            Self::Pop3 => 110,
            Self::Imap => 143,
        }
    }
}

// Document 01's number of an answer.
pub fn guess_number(g: Guess) -> u32
    ensures { result ≡ guess_number g }
{
    g as u32
}

// The answer for a protocol's number, both ports, and each side's first payload with a mark whether it is held.
pub fn dir_confirm(
    protocol: u32,
    client_port: u32,
    server_port: u32,
    client_held: bool,
    client: &[u8],
    server_held: bool,
    server: &[u8],
) -> Guess
    ensures { result ≡ guess protocol (side client_port client_held client.now) (side server_port server_held server.now) }
{
    let Some(p) = Protocol::of(protocol) else {
        return Guess::OtherProtocol;
    };
    let client = End {
        port: client_port,
        payload: client_held.then_some(client),
    };
    let server = End {
        port: server_port,
        payload: server_held.then_some(server),
    };
    confirm(p, client, server)
}

// One protocol's answer: by the ports, else by the payloads.
#[tactic(auto, unfolding(crate::specs::Direction::confirm))]
fn confirm(p: Protocol, client: End<'_>, server: End<'_>) -> Guess
    ensures { result ≡ confirm p (seen client.entry) (seen server.entry) }
{
    let port = p.port();
    if server.port == port {
        return Guess::AsGiven;
    }
    if client.port == port {
        return Guess::Swapped;
    }
    by_payload(p, client, server)
}

// The answer by the payloads that are held, whatever the ports.
#[tactic(auto, unfolding(crate::specs::Direction::by_payload))]
fn by_payload(p: Protocol, client: End<'_>, server: End<'_>) -> Guess
    ensures { result ≡ by_payload p (seen client.entry) (seen server.entry) }
{
    match (client.payload, server.payload) {
        (None, None) => Guess::Unknown,
        (_, Some(l)) if greets(p, l) => Guess::AsGiven,
        (_, Some(l)) if commands(p, l) => Guess::Swapped,
        (Some(l), _) if greets(p, l) => Guess::Swapped,
        _ => Guess::AsGiven,
    }
}

// Whether a server of the protocol greets so.
#[tactic(auto, unfolding(crate::specs::Direction::greets))]
fn greets(p: Protocol, payload: &[u8]) -> bool
    ensures { result ≡ greets p payload.now }
{
    match p {
        Protocol::Smtp => {
            reading::starts_with(payload, b"220 ")
                || reading::starts_with(payload, b"220-")
                || reading::starts_with(payload, b"421 ")
                || reading::starts_with(payload, b"421-")
        }
        Protocol::Pop3 => reading::starts_with(payload, b"+OK "),
        Protocol::Imap => reading::starts_with(payload, b"* OK "),
    }
}

// Whether a client of the protocol opens so.
#[tactic(auto, unfolding(crate::specs::Direction::commands))]
fn commands(p: Protocol, payload: &[u8]) -> bool
    ensures { result ≡ commands p payload.now }
{
    match p {
        Protocol::Smtp => {
            reading::starts_with(payload, b"HELO ") || reading::starts_with(payload, b"EHLO ")
        }
        Protocol::Pop3 => reading::starts_with(payload, b"USER "),
        Protocol::Imap => payload.len() >= 10 && clt_cmd(payload),
    }
}

// Whether an IMAP client's line opens so: a tag, a space among the first ten bytes, an upper-case letter.
#[tactic(auto, unfolding(crate::specs::Direction::clt_cmd))]
fn clt_cmd(input: &[u8]) -> bool
    requires { 10 ≤ length input.now }
    ensures { result ≡ clt_cmd input.now }
{
    let Some(space) = reading::find_byte(&input[..10], b' ') else {
        return false;
    };
    is_alphanumeric(input[0]) && command_at(input, space)
}

// Whether a space at p has a tag before it and an upper-case letter behind it.
#[tactic(auto, using(crate::proofs::Tags::tagless, crate::proofs::Tags::bare_tag, crate::proofs::Tags::tag_and))]
fn command_at(input: &[u8], p: usize) -> bool
    requires { p < length input.now }
    ensures { result ≡ command_at input.now (Some p) }
{
    is_tag(&input[..p]) && p + 1 < input.len() && classes::is_upper(input[p + 1])
}

// Whether all are bytes of a tag.
fn is_tag(tag: &[u8]) -> bool
    ensures { result ≡ is_tag tag.now }
{
    tag.iter().all(|b| is_tag_byte(*b))
}

#[tactic(auto, unfolding(crate::specs::Direction::is_tag_byte))]
fn is_tag_byte(b: u8) -> bool
    ensures { result ≡ is_tag_byte b }
{
    is_alphanumeric(b) || matches!(b, b'.' | b'+' | b'-')
}

fn is_alphanumeric(b: u8) -> bool
    ensures { result ≡ (is_letter b || is_digit b) }
{
    classes::is_letter(b) || classes::is_digit(b)
}
