// The entries by their letters: S SMTP client, s SMTP server, P POP3 server, I IMAP client.
#![tactic(auto)]

ghost use Rattle.std.specs.Prelude.{◌≡◌};
ghost use Rattle.letters.specs.Letters.{entry_of};

use rules::Entry;

#[tactic(auto, unfolding(crate::specs::Letters::entry_of))]
pub fn entry_of(letter: u8) -> Option<Entry>
    ensures { result ≡ entry_of letter }
{
    match letter {
        b'S' => Some(Entry::SmtpClient),
        b's' => Some(Entry::SmtpServer),
        b'P' => Some(Entry::Pop3Server),
        b'I' => Some(Entry::ImapClient),
        _ => None,
    }
}
