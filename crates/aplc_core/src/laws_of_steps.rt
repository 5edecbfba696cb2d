//! What the steps of a statement say, for those who read steps.
//! It must not hold code that runs.

ghost use Rattle.std.specs.Prelude.{nat_eq};
ghost use Rattle.std.specs.List.{IsDistinct};
ghost use Rattle.std.specs.List.Sorted.{IsPermutation};
ghost use Rattle.aplc_names.specs.PlainPrograms.{Action};
ghost use Rattle.aplc_core.specs.CoreLaws.{action_ids, IsNumbered};
ghost use Rattle.aplc_core.specs.Lowering.{lowered};
ghost use Rattle.aplc_core.specs.Structure.{order_of, Says};
ghost use Rattle.aplc_core.specs.StepLaws.{SaysStatements};

use aplc_names::Bound;

/// The steps of a statement are its nodes in eager order, each with its own arguments: in a tree under its own number, or
/// as the result of a call or of an input. A slot names the node that it reads. The value of an assignment stands as a read
/// of its name, and that of an indexed assignment or of `⎕←` as a slot, each under its own number.
pub fn steps_say_statements()
    ensures { (x : Action) → Says (lowered x) x (order_of x) }
{}

/// Eager order has the nodes of the statement, each as often as the statement has it.
pub fn order_has_each_node()
    ensures { (x : Action) → IsPermutation (action_ids x) (order_of x) }
{}

/// No node stands twice.
pub fn no_node_twice()
    ensures { (x : Action) → IsNumbered x → IsDistinct nat_eq (order_of x) }
{}

/// So it is with the lines of every resolved program.
pub fn bound_says_statements(bound: &Bound)
    ensures { SaysStatements bound.now }
{
    let _program = bound.program();
}
