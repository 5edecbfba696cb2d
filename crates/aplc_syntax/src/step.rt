//! What reading a statement from the left needs: what it waits for, and the steps that build the tree.
//! They must not hold trees, and each is a few words long.

use crate::tree::{Axis, Primitive};
use crate::word::Stroke;
use aplc_scalar::ScalarFn;

/// A step of building a tree, with the place of the node that it makes. It takes what the steps before it have made.
#[derive(Clone, Copy)]
pub enum Step {
    /// A vector begins with this number.
    Number(u32, i64),
    /// One more number for the vector made last.
    More(i64),
    /// A text, and where it ends.
    Text(u32, u32),
    Name(u32, u32),
    TextInput(u32),
    NumsInput(u32),
    Mono(u32, Primitive),
    Dyad(u32, Primitive),
    Call0(u32, u32),
    Call1(u32, u32),
    Call2(u32, u32),
    /// A list of entries begins.
    List,
    /// An entry that is left out.
    Gap,
    /// What was made last is an entry.
    Entry,
    /// The list ends, and is the index of what was made before it.
    Index(u32),
    /// What was made last stood in parentheses.
    Paren,
    Assign,
    AssignAt,
    Show(u32),
    Branch(u32),
    Perform0(u32, u32),
    Perform1(u32, u32),
    Perform2(u32, u32),
}

/// What a bracket list belongs to.
#[derive(Clone, Copy)]
pub enum Inner {
    /// A value that is no name.
    Free,
    /// A name that may be assigned.
    Base,
    /// A name that must be assigned.
    Owed,
}

/// What waits for a value to end.
#[derive(Clone, Copy)]
pub enum Waiting {
    Apply(Step),
    Paren,
    Bracket(u32, Inner),
}

/// What stands before an arrow, if one comes.
#[derive(Clone, Copy)]
pub enum Target {
    /// Nothing that can be assigned.
    No,
    /// A vector, which further numbers go on with.
    Numbers,
    /// A name.
    Name,
    /// A name with its index.
    At,
}

/// A function that an axis may follow, and its place.
#[derive(Clone, Copy)]
pub enum Along {
    Turn1(u32),
    Turn2(u32),
    Reduce(u32, ScalarFn, Stroke),
    Copies(u32, Stroke),
}

/// What may come next.
#[derive(Clone, Copy)]
pub enum Mode {
    /// A statement.
    Begin,
    /// A value.
    Want,
    /// An entry of a list, or its end.
    Start,
    /// An operand is behind.
    After(Target),
    /// An arrow.
    Must,
    /// A function of one argument is behind.
    Fun(u32, u32),
    /// A name is behind that can only be assigned.
    Only(u32, u32),
    /// A procedure without arguments begins the statement.
    Proc0(u32, u32),
    /// A procedure of one argument begins the statement.
    Proc1(u32, u32),
    /// A scalar function is behind where a value is wanted.
    Scalar(u32, ScalarFn),
    /// The same, of two arguments alone.
    Compare(u32, ScalarFn),
    /// A scalar function is behind an operand.
    Scalar2(u32, ScalarFn),
    /// A scalar function and a dot are behind an operand.
    Dot(u32, ScalarFn),
    Jot(u32),
    JotDot(u32),
    /// A function is behind that has this axis unless one is named.
    Along(Along, Axis),
    /// The bracket of an axis is behind.
    Axis(Along),
    /// An axis is behind.
    Axed(Along, i64),
    Quad(u32),
}
