//! A table of the nodes that are held, by their numbers.
//! It must not know why a node is held.

ghost use Rattle.std.specs.Prelude.{◌≡◌, ℕ, ◌<◌, ◌||◌, length, nat_eq, OnOk};
ghost use Rattle.aplc_plan.specs.Held.{held_in};

use std::alloc::AllocError;

/// A place for the node.
fn reach(table: &mut Vec<bool>, node: usize) -> Result<(), AllocError>
    ensures reached { OnOk result (node < length table.new.items) }
    ensures same { OnOk result ((n : ℕ) → held_in table.new.items n ≡ held_in table.old.items n) }
{
    while table.len() <= node {
        table.push(false)?;
    }
    Ok(())
}

/// The node is held.
pub fn hold(table: &mut Vec<bool>, node: u32) -> Result<(), AllocError>
    ensures { OnOk result ((n : ℕ) → held_in table.new.items n ≡ (nat_eq n node || held_in table.old.items n)) }
{
    reach(table, node as usize)?;
    table[node as usize] = true;
    Ok(())
}
