// The four entries: a session's bytes and a lent table in, the events into the table, result, place and count out.
#![tactic(auto)]

ghost use Rattle.std.specs.Prelude.{◌≡◌};
ghost use Rattle.events.specs.Table.{final_of, no_events};
ghost use Rattle.reads.specs.Clauses.{final_at};
ghost use Rattle.rules.specs.Phases.{reads};
ghost use Rattle.rules.specs.Sessions.{answer_of, start_of, session, settle, smtp_client, smtp_server, pop3_server, imap_client};

use crate::buffer::Buffer;
use crate::walks::{START, answer, run};
use events::{Answer, Outcome};
use reads::Stop;
use rules::Entry;

mod body;
mod buffer;
mod header;
mod imap;
mod multi;
mod pop3;
mod smtp;
mod walks;

pub fn dissect(entry: Entry, s: &[u8], table: &mut [u32]) -> Answer
    ensures { final_of table.new result ≡ answer_of entry table.old s.now }
{
    match Buffer::new(s) {
        Some(bytes) => answer(walk(entry, bytes, table)),
        None => answer(START.stop(Outcome::TooLong)),
    }
}

// Each entry from its first phase to the session's end.
fn walk(entry: Entry, s: Buffer, table: &mut [u32]) -> Stop
    ensures { final_at table.new result ≡ settle table.old no_events (session (reads (start_of entry)) 0 s.entry.bytes.now) }
{
    match entry {
        Entry::SmtpClient => smtp::client(s, table),
        Entry::SmtpServer => run(s, table, smtp::reply),
        Entry::Pop3Server => run(s, table, pop3::status),
        Entry::ImapClient => run(s, table, imap::command),
    }
}

pub fn smtp_client(s: &[u8], table: &mut [u32]) -> Answer
    ensures { final_of table.new result ≡ smtp_client table.old s.now }
{
    dissect(Entry::SmtpClient, s, table)
}

pub fn smtp_server(s: &[u8], table: &mut [u32]) -> Answer
    ensures { final_of table.new result ≡ smtp_server table.old s.now }
{
    dissect(Entry::SmtpServer, s, table)
}

pub fn pop3_server(s: &[u8], table: &mut [u32]) -> Answer
    ensures { final_of table.new result ≡ pop3_server table.old s.now }
{
    dissect(Entry::Pop3Server, s, table)
}

pub fn imap_client(s: &[u8], table: &mut [u32]) -> Answer
    ensures { final_of table.new result ≡ imap_client table.old s.now }
{
    dissect(Entry::ImapClient, s, table)
}
