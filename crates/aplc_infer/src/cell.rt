//! Where facts are kept, and what names are to the typing of a function.
//! It must not know how facts are found.

ghost use Rattle.std.specs.Prelude.{◌≡◌};

use crate::fact::Inferred;

/// A place where a fact is kept. Functions are counted from 0, lines from 1.
#[derive(Clone, Copy, Debug, PartialEq, Eq)]
pub enum Cell {
    /// The node of this number.
    Node(u32),
    /// The global name of this number.
    Global(u32),
    /// The left argument of a function.
    Left(usize),
    /// The right argument of a function.
    Right(usize),
    /// The result of a function.
    Answer(usize),
    /// A function, a line of it, and a local name by its number among those of the function: what the name has at the
    /// start of the line.
    Start(usize, usize, usize),
}

/// The fact at a cell is to be above this one.
#[derive(Drop)]
pub struct Demand {
    pub cell: Cell,
    pub fact: Inferred,
}

/// What a name is in a function.
#[derive(Clone, Copy, Debug, PartialEq, Eq)]
pub enum Binding {
    /// The local name of this number.
    Local(usize),
    /// A label of the line of this number.
    Label(i64),
    /// The function of this number.
    Function(usize),
    Global,
}

/// Where a line leads, by numbers of lines. A number that no line has is the way out.
#[derive(Clone, Copy, Debug, PartialEq, Eq)]
pub enum Flow {
    /// To the following line.
    Next,
    To(usize),
    /// To this line and the following one.
    Either(usize),
    /// To every line and the way out.
    Any,
}
