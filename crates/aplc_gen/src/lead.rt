//! Where a branch leads.
//! It must not know the code of branches.

/// Where a branch leads.
#[derive(Clone, Copy, Debug, PartialEq, Eq)]
pub enum Lead {
    /// Out of the function.
    Out,
    /// To the line of this number, which has steps.
    Line(u32),
    /// Where the value says.
    Computed,
}
