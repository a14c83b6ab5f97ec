// Types that the definition of the sessions shares with the code. What the rules are stands in specs/.
#![tactic(auto)]

// Which side of which protocol a session's bytes are.
#[derive(Clone, Copy)]
pub enum Entry {
    SmtpClient,
    SmtpServer,
    Pop3Server,
    ImapClient,
}

// Whose mail a walk is in; of an IMAP client's the literal's size, and where the mail's header began.
#[derive(Clone, Copy)]
pub enum Mail {
    Smtp,
    Pop3,
    Imap(u64, usize),
}

// What is chosen where a session by windows begins, beside its entry: with `strict`, a line that does not end in CRLF ends the session.
#[derive(Clone, Copy)]
pub struct Settings {
    pub strict: bool,
}
