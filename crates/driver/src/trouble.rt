// Why a line is not carried out.
ghost use Rattle.std.specs.Prelude.{◌≡◌, Some};
ghost use Rattle.driver.specs.declared.trouble.Trouble.TheVariants.{Call, Line};
ghost use Rattle.driver.specs.Said.{trouble_said};

use lines::Fault;
use std::error::Error;
use std::fmt;
use types::Refusal;

// The call was refused, or the line could not be read.
#[derive(Clone, Copy, PartialEq, Eq, Debug)]
pub enum Trouble {
    Call(Refusal),
    Line(Fault),
}

// By hand, since a derived conversion does not say what it gives.
impl From<Fault> for Trouble {
    ghost from_gives = { λ fault r. r ≡ Line fault };

    fn from(fault: Fault) -> Trouble {
        Trouble::Line(fault)
    }
}

impl From<Refusal> for Trouble {
    ghost from_gives = { λ refusal r. r ≡ Call refusal };

    fn from(refusal: Refusal) -> Trouble {
        Trouble::Call(refusal)
    }
}

// A refused call is printed with its number, a refused line with its number and the place.
impl fmt::Display for Trouble {
    ghost output = { λ trouble. Some (trouble_said trouble) };

    fn fmt<W: fmt::Write>(&self, f: &mut fmt::Formatter<W>) -> fmt::Result {
        match self {
            Trouble::Call(refusal) => write!(f, "refused {refusal}"),
            Trouble::Line(fault) => write!(f, "refused {} at {}", fault.refusal, fault.place),
        }
    }
}

impl Error for Trouble {}
