//! What a call answers: its status, and why its work stopped short.
//! It must not know how the work is done.

ghost use Rattle.std.specs.Prelude.{◌≡◌};
ghost use Rattle.aplc_cli.specs.Came.{code_of};

use aplc_crun::{Machine, StuckCause};
use aplc_lex::Refusal;
use aplc_scalar::FaultKind;

/// How a call of the program ended.
#[derive(Clone, Copy, Debug, PartialEq, Eq)]
pub enum Status {
    Done,
    Faulted,
    Refused,
    Usage,
    ReadFault,
    WriteFault,
    Spent,
    Memory,
    Stuck,
}

impl Status {
    /// The exit code of the program.
    pub fn code(&self) -> u8
        ensures { result ≡ code_of self.now }
    {
        match self {
            Status::Done => 0,
            Status::Faulted => 1,
            Status::Refused => 2,
            Status::Usage => 3,
            Status::ReadFault => 4,
            Status::WriteFault => 5,
            Status::Spent => 6,
            Status::Memory => 7,
            Status::Stuck => 8,
        }
    }
}

/// How the run of a text ended.
#[derive(Clone, Copy, Debug, PartialEq, Eq)]
pub enum RunEnd {
    /// It came to its end.
    Ended,
    /// It met a fault.
    Faulted(FaultKind),
    /// Its steps were spent.
    Spent,
    /// It got stuck, at the statement of this number.
    Stuck(StuckCause, u64),
}

/// What the work of a call came to, where nothing outside failed.
#[derive(Drop)]
pub enum Ending {
    /// The text was handed over.
    Compiled,
    /// The text was carried out: how that ended, and the machine as it stands.
    Ran(RunEnd, Machine),
}

/// Why the work of a call stops short.
#[derive(Clone, Copy, Debug, PartialEq, Eq)]
pub enum Stop {
    Usage,
    Refused(Refusal),
    ReadFault,
    WriteFault,
    Memory,
}
