//! What is said of the nodes of a program.
//! It must not know how that was found.

ghost use Rattle.std.specs.Prelude.{◌≡◌};
ghost use Rattle.aplc_plan.specs.Held.{held_in, swept_in};

use aplc_syntax::NodeId;
use std::marker::Model;

/// Which nodes of a program are held, and which are swept.
#[derive(Drop)]
pub struct Plan {
    held: Vec<bool>,
}

impl Model for Plan {
    ghost use Rattle.std.specs.Prelude.{List as ListOf, Bool};

    ghost Value = { ListOf Bool };

    ghost view = { λ p. p.held.items };
}

impl Plan {
    /// By the numbers of nodes.
    pub fn from_table(held: Vec<bool>) -> Plan
        ensures { result ≡ held.items }
    {
        Plan { held }
    }

    /// Whether the whole value of the node is in memory before a node above it is computed.
    pub fn held(&self, node: NodeId) -> bool
        ensures { result ≡ held_in self.now node.0 }
    {
        match self.held.get(node.0 as usize) {
            None => false,
            Some(held) => *held,
        }
    }

    /// Whether all elements of the node are computed at its eager place and dropped.
    pub fn swept(&self, _node: NodeId) -> bool
        ensures { result ≡ swept_in self.now _node.0 }
    {
        false
    }
}
