// Lines of an SMTP client. Ports the line tests of smtp.rs.
ghost use Rattle.std.specs.Prelude.{◌≡◌};
ghost use Rattle.fields.specs.Smtp.{starts_with_helo, second_line, is_mail_from, is_data, mail_from, rcpt_to};

use reading::Span;

// The lengths of `MAIL FROM: <` and `RCPT TO: <`.
const FROM_FIELD: usize = 12;

const TO_FIELD: usize = 10;

// What the second line is.
#[derive(Clone, Copy, PartialEq, Eq)]
pub enum Second {
    StartTls,
    AuthLogin,
    MailFrom,
    Other,
}

#[tactic(auto, unfolding(crate::specs::Smtp::starts_with_helo))]
pub fn starts_with_helo(l: &[u8]) -> bool
    ensures { result ≡ starts_with_helo l.now }
{
    reading::starts_with_any_case(l, b"HELO") || reading::starts_with_any_case(l, b"EHLO")
}

#[tactic(auto, unfolding(crate::specs::Smtp::second_line))]
pub fn second_line(l: &[u8]) -> Second
    ensures { result ≡ second_line l.now }
{
    if reading::equals_any_case(l, b"STARTTLS") {
        Second::StartTls
    } else if reading::equals_any_case(l, b"AUTH LOGIN") {
        Second::AuthLogin
    } else if is_mail_from(l) {
        Second::MailFrom
    } else {
        Second::Other
    }
}

#[tactic(auto, unfolding(crate::specs::Smtp::is_mail_from))]
pub fn is_mail_from(l: &[u8]) -> bool
    ensures { result ≡ is_mail_from l.now }
{
    reading::starts_with_any_case(l, b"MAIL FROM:")
}

#[tactic(auto, unfolding(crate::specs::Smtp::is_data))]
pub fn is_data(l: &[u8]) -> bool
    ensures { result ≡ is_data l.now }
{
    reading::equals_any_case(l, b"DATA")
}

pub fn mail_from(l: &[u8]) -> Option<Span>
    ensures { result ≡ mail_from l.now }
{
    let rest = l.strip_prefix(b"MAIL FROM: <")?;
    let len = reading::find_byte(rest, b'>').unwrap_or(rest.len());
    Some(Span {
        at: FROM_FIELD,
        len,
    })
}

pub fn rcpt_to(l: &[u8]) -> Option<Span>
    ensures { result ≡ rcpt_to l.now }
{
    let rest = l.strip_prefix(b"RCPT TO: <")?;
    let len = reading::find_byte(rest, b'>')?;
    Some(Span { at: TO_FIELD, len })
}
