//! A program laid out flat: the statement of number n is at place n, and place 0 leaves a function.
//! It must not know what has become of a run.

use crate::choices::Choices;
use crate::term::Term;
use aplc_cprof::{Buf, Checked, Int, List};
use aplc_scalar::FaultKind;

/// A statement, with the places of what can be due after it.
#[derive(Drop)]
pub enum Node {
    /// The end of a function.
    End,
    Set(Int, Term, usize),
    SetCell(Buf, Term, Term, usize),
    SetBuf(Buf, Option<Buf>, usize),
    Cells(Buf, Term, usize),
    Free(Buf, usize),
    Check(Int, Checked, Term, Term, usize),
    Width(Int, Term, usize),
    PutNum(Term, Term, usize),
    PutChar(Term, usize),
    ReadText(Buf, usize),
    ReadNums(Buf, usize),
    ReadCount(Int, usize),
    At(List<u8>, i64, usize),
    Enter(usize),
    Leave(usize),
    Fault(FaultKind),
    Call(u32, usize),
    Return,
    /// The place where the condition holds, and the place where it does not.
    If(Term, usize, usize),
    /// The place of the body, and the place after the loop.
    While(Term, usize, usize),
    /// The arms, and the place of the default.
    Switch(Int, Choices, usize),
}

/// Where a function begins, and how many variables its frame has.
#[derive(Clone, Copy, Debug, PartialEq, Eq)]
pub struct Entry {
    pub at: usize,
    pub ints: usize,
    pub bufs: usize,
}

/// A program's statements, functions and tables.
#[derive(Drop)]
pub struct Laid {
    pub nodes: Vec<Node>,
    pub entries: Vec<Entry>,
    pub tables: Vec<List<i64>>,
}
