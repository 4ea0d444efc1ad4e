// What an operation answers, and its words.
use derivation::Confirmed;
use refusal::{Reason, Refused, number};
use std::fmt;

// What an operation said.
#[derive(Clone, Copy)]
pub enum Said {
    Accepted,
    Confirmed(Confirmed),
    Written(usize),
    Refused(Refused),
}

impl fmt::Display for Said {
    fn fmt<W: fmt::Write>(&self, f: &mut fmt::Formatter<W>) -> fmt::Result {
        match *self {
            Said::Accepted => write!(f, "accepted"),
            Said::Confirmed(Confirmed { claim, degree }) => {
                write!(f, "confirmed {claim} degree {degree}")
            }
            Said::Written(size) => write!(f, "written {size}"),
            Said::Refused(Refused { record, reason }) => {
                let number = number(reason);
                write!(f, "refused {number} at record {record}")?;
                if let Reason::TooManyTerms(terms) = reason {
                    write!(f, ", {terms} terms")?;
                }
                Ok(())
            }
        }
    }
}

// What a filing or a step said.
impl From<Result<(), Refused>> for Said {
    fn from(answer: Result<(), Refused>) -> Said {
        match answer {
            Ok(()) => Said::Accepted,
            Err(refused) => Said::Refused(refused),
        }
    }
}

// What a check said.
impl From<Result<Confirmed, Refused>> for Said {
    fn from(answer: Result<Confirmed, Refused>) -> Said {
        match answer {
            Ok(confirmed) => Said::Confirmed(confirmed),
            Err(refused) => Said::Refused(refused),
        }
    }
}

// What the writing of a line said.
impl From<Result<usize, Refused>> for Said {
    fn from(answer: Result<usize, Refused>) -> Said {
        match answer {
            Ok(size) => Said::Written(size),
            Err(refused) => Said::Refused(refused),
        }
    }
}
