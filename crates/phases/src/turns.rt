// What every group of phases is made of: how a turn ends, and what follows a mail or a level of it.
ghost use Rattle.std.specs.Prelude.{◌≡◌, List, ℕ, ◌≤◌};
ghost use Rattle.reads.specs.Clauses.{Begins};
ghost use Rattle.phases.specs.Phasing.{over_of, onward_of, unheard, Enters, outside};
ghost use Rattle.rules.specs.Mail.{after_mail, popped};

use crate::{Heard, Phase, Spot};
use events::{Encoding, Log, Outcome};
use reads::Stop;
use rules::Mail;

// The session is over behind e.
pub fn over(a: Stop, e: usize) -> Spot
    ensures { result ≡ over_of a e }
{
    Spot {
        phase: Phase::Over(a.result, a.place),
        taken: e,
        log: a.log,
    }
}

// On to a phase behind e, its events being written; or the session is over.
pub fn onward(noted: Result<Log, Stop>, phase: Phase, e: usize) -> Spot
    ensures { result ≡ onward_of noted phase e }
{
    match noted {
        Ok(log) => Spot {
            phase,
            taken: e,
            log,
        },
        Err(a) => over(a, e),
    }
}

// Nothing yet.
pub fn unheard() -> Heard
    ensures { result ≡ unheard }
{
    Heard {
        encoding: Encoding::Unsaid,
        seen: false,
        supplied: false,
    }
}

// Where a mail is over, at the session's place `to`.
pub fn after_mail(mail: Mail, to: usize) -> Phase
    ensures { (k : List ℕ) → Enters k (after_mail mail to) to result }
{
    match mail {
        Mail::Smtp => Phase::Over(Outcome::Done, to),
        Mail::Pop3 => Phase::Status,
        Mail::Imap(_, _) => Phase::Closing,
    }
}

// Where a level is left.
pub fn popped(mail: Mail, level: usize, to: usize) -> Phase
    requires { (level ≤ 8) × Begins mail to }
    ensures { (k : List ℕ) → Enters k (popped mail (outside k level) to) to result }
{
    if level == 0 {
        return after_mail(mail, to);
    }
    Phase::Head(mail, unheard(), level)
}
