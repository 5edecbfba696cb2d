//! The programs of the C profile.
//! The types must not know their text, and every value of them is a program, well formed or not.

use crate::List;
use aplc_scalar::FaultKind;
use sqlite_items::{Boxed, Items};

/// A whole variable: `v0` of the function or `g0` of the program.
#[derive(Clone, Copy, Debug, PartialEq, Eq)]
pub enum Int {
    Local(u32),
    Global(u32),
}

/// A buffer variable: `b0` of the function or `h0` of the program.
#[derive(Clone, Copy, Debug, PartialEq, Eq)]
pub enum Buf {
    Local(u32),
    Global(u32),
}

/// An operator of an expression. Where its left side decides, `And` and `Or` leave the right one unevaluated.
#[derive(Clone, Copy, Debug, PartialEq, Eq)]
pub enum Op {
    Add,
    Sub,
    Mul,
    Div,
    Rem,
    Less,
    LessEq,
    Equal,
    NotEqual,
    GreaterEq,
    Greater,
    And,
    Or,
}

/// Arithmetic that faults with LIMIT where its result is out of range.
#[derive(Clone, Copy, Debug, PartialEq, Eq)]
pub enum Checked {
    Add,
    Sub,
    Mul,
}

/// An expression: `5LL`, a variable, a cell of a buffer or a table, or an operation.
#[derive(Drop)]
pub enum CExpr {
    Lit(i64),
    Var(Int),
    Cell(Buf, Boxed<CExpr>),
    Table(u32, Boxed<CExpr>),
    Bin(Op, Boxed<CExpr>, Boxed<CExpr>),
}

/// One number of a `switch`, and what is done there.
#[cycle(stmt)]
#[derive(Drop)]
pub struct Arm {
    pub value: i64,
    pub body: Items<CStmt>,
}

/// A statement.
#[cycle(stmt)]
#[derive(Drop)]
pub enum CStmt {
    Set(Int, CExpr),
    SetCell(Buf, CExpr, CExpr),
    /// Names the other variable's buffer, or none.
    SetBuf(Buf, Option<Buf>),
    /// A new buffer of so many cells, all 0.
    Cells(Buf, CExpr),
    Free(Buf),
    Check(Int, Checked, CExpr, CExpr),
    /// The number of characters of a number's text.
    Width(Int, CExpr),
    /// A number, right-justified to a width.
    PutNum(CExpr, CExpr),
    PutChar(CExpr),
    ReadText(Buf),
    ReadNums(Buf),
    ReadCount(Int),
    /// The APL function and line where the run stands: the innermost place is this one, and a mark is left.
    At(List<u8>, i64),
    /// A new innermost place, of no function yet.
    Enter,
    /// The innermost place goes, and the one behind it is the innermost again.
    Leave,
    Fault(FaultKind),
    Call(u32),
    Return,
    If(CExpr, Items<CStmt>, Option<Items<CStmt>>),
    While(CExpr, Items<CStmt>),
    /// The arms' numbers rise; the last body is the default.
    Switch(Int, Items<Arm>, Items<CStmt>),
}

/// A function: how many whole and buffer variables it has, and its statements.
#[derive(Drop)]
pub struct CFunction {
    pub ints: u32,
    pub bufs: u32,
    pub body: Items<CStmt>,
}

/// A program: constant tables, the numbers of its global whole and buffer variables, and its functions.
#[derive(Drop)]
pub struct CProgram {
    pub tables: List<List<i64>>,
    pub ints: u32,
    pub bufs: u32,
    pub functions: List<CFunction>,
}

/// Why the machine can't go on.
#[derive(Clone, Copy, Debug, PartialEq, Eq)]
pub enum StuckCause {
    /// A place outside its buffer or table, or of no buffer.
    Outside,
    /// A statement needs a buffer that was freed before.
    Freed,
    /// A whole variable has no number yet.
    Unset,
    /// A number out of range, or a divisor 0.
    Range,
}
