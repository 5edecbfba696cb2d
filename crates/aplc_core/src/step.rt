//! The steps of a line and their trees.
//! The types must not know how a statement is cut, and steps need not be those of a statement.

use aplc_lex::List;
use aplc_scalar::Kind;
use aplc_syntax::{NameId, NodeId, Prim};
use sqlite_items::{Boxed, Items};

/// The number of a slot, its own in the line, from 0. A slot keeps an array while the line runs.
#[derive(Clone, Copy, Debug, PartialEq, Eq, PartialOrd, Ord)]
pub struct SlotId(pub u32);

/// An expression without effects, each node with its number in the program. A left argument stands before the right one.
/// An index that is left out is `None`.
#[derive(Drop)]
pub enum Tree {
    /// One element alone is a scalar, others are a vector; a character is its code point.
    Literal(NodeId, Kind, List<i64>),
    /// A name that is read; or the value of an assignment, under its number.
    Read(NodeId, NameId),
    /// The value of a node that was evaluated by an earlier step.
    Slot(NodeId, SlotId),
    Mono(NodeId, Prim, Boxed<Tree>),
    Dyad(NodeId, Prim, Boxed<Tree>, Boxed<Tree>),
    Index(NodeId, Boxed<Tree>, Boxed<Items<Option<Tree>>>),
}

/// One effect of a line, under the number of the node that it carries out.
#[derive(Drop)]
pub enum Step {
    /// The value of the tree is kept in the slot.
    Keep(SlotId, Tree),
    Store(NodeId, NameId, Tree),
    StoreAt(NodeId, NameId, Items<Option<Tree>>, Tree),
    /// The function, the left argument, the right one, and where the result goes.
    Call(NodeId, NameId, Option<SlotId>, Option<SlotId>, Option<SlotId>),
    /// A line of the input as characters.
    Text(NodeId, SlotId),
    /// A line of the input as numbers.
    Nums(NodeId, SlotId),
    /// The value is displayed: by `⎕←` with its number, or by the statement itself.
    Show(Option<NodeId>, Tree),
    /// The value names the next line.
    Branch(Tree),
}
