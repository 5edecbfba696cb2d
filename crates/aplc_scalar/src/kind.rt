//! The kinds of values and of faults.
//! They must not depend on how a value is stored or how a fault is reported.

/// What the elements of an array are.
#[derive(Clone, Copy, Debug, PartialEq, Eq)]
pub enum Kind {
    Num,
    Char,
}

/// Why a run of a program stops with a fault. As a number each is its place in this list.
#[derive(Clone, Copy, Debug, PartialEq, Eq)]
pub enum FaultKind {
    Domain,
    Index,
    Length,
    Limit,
    Rank,
    Value,
    Input,
}
