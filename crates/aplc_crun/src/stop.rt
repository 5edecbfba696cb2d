//! Why a run stops.
//! It must not know how it is reported.

use aplc_cprof::StuckCause;
use aplc_scalar::FaultKind;

/// Why a run stopped before the program's end.
#[derive(Clone, Copy, Debug, PartialEq, Eq)]
pub enum RunStop {
    /// The program ended with a fault.
    Fault(FaultKind),
    /// The budget is spent.
    Spent,
    /// The machine is stuck, at the statement of this number.
    Stuck(StuckCause, u64),
    /// The input could not be read.
    ReadFault,
    /// The output could not be written.
    WriteFault,
    /// No memory was left.
    Memory,
}
