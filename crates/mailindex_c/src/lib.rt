// The library for C: each call of include/mailindex.h, with the clauses of the function of `mailindex` that answers it.
#![tactic(auto)]

ghost use Rattle.std.specs.Prelude.{◌≡◌};
ghost use Rattle.direction.specs.Direction.{guess, guess_number};
ghost use Rattle.rules.specs.Sessions.{smtp_client, smtp_server, pop3_server, imap_client};
ghost use Rattle.mailindex.specs.Exports.{Answers, marked, version, chosen, Begins, Showing};

// Begins a session: what C holds of it is its numbers and the copies of its open boundaries.
#[unsafe(no_mangle)]
pub extern "C" fn mailindex_begin(
    choices: &[u64; 8],
    numbers: &mut [u64; 24],
    boundaries: &mut [u8; 648],
) -> u32
    ensures { Begins (chosen choices.now) numbers.new boundaries.new result }
{
    mailindex::mailindex_begin(choices, numbers, boundaries)
}

// Shows it a window: result, place, count and how many bytes were taken.
#[unsafe(no_mangle)]
pub extern "C" fn mailindex_show(
    numbers: &mut [u64; 24],
    boundaries: &mut [u8; 648],
    w: &[u8],
    table: &mut [u32],
    answer: &mut [u64; 4],
)
    ensures { Showing numbers.old boundaries.old w.now table.old
        numbers.new boundaries.new table.new answer.new }
{
    mailindex::mailindex_show(numbers, boundaries, w, table, answer);
}

#[unsafe(no_mangle)]
pub extern "C" fn mailindex_smtp_client(s: &[u8], table: &mut [u32], answer: &mut [u64; 3])
    ensures { Answers (smtp_client table.old s.now) table.new answer.new }
{
    mailindex::mailindex_smtp_client(s, table, answer);
}

#[unsafe(no_mangle)]
pub extern "C" fn mailindex_smtp_server(s: &[u8], table: &mut [u32], answer: &mut [u64; 3])
    ensures { Answers (smtp_server table.old s.now) table.new answer.new }
{
    mailindex::mailindex_smtp_server(s, table, answer);
}

#[unsafe(no_mangle)]
pub extern "C" fn mailindex_pop3_server(s: &[u8], table: &mut [u32], answer: &mut [u64; 3])
    ensures { Answers (pop3_server table.old s.now) table.new answer.new }
{
    mailindex::mailindex_pop3_server(s, table, answer);
}

#[unsafe(no_mangle)]
pub extern "C" fn mailindex_imap_client(s: &[u8], table: &mut [u32], answer: &mut [u64; 3])
    ensures { Answers (imap_client table.old s.now) table.new answer.new }
{
    mailindex::mailindex_imap_client(s, table, answer);
}

// A mark that is not 0 says that the payload is held.
#[unsafe(no_mangle)]
pub extern "C" fn mailindex_direction(
    protocol: u32,
    client_port: u32,
    server_port: u32,
    client_held: u32,
    client: &[u8],
    server_held: u32,
    server: &[u8],
) -> u32
    ensures { result ≡ guess_number (guess protocol (marked client_port client_held client.now) (marked server_port server_held server.now)) }
{
    mailindex::mailindex_direction(
        protocol,
        client_port,
        server_port,
        client_held,
        client,
        server_held,
        server,
    )
}

// The header's number of what the library is.
#[unsafe(no_mangle)]
pub extern "C" fn mailindex_version() -> u32
    ensures { result ≡ version }
{
    mailindex::mailindex_version()
}
