//! What facts promise of runs, for those who build on them.
//! It must not hold code that runs.

ghost use Rattle.aplc_syntax.specs.declared.tree.Program.{Program};
ghost use Rattle.aplc_soundness.specs.FactLaws.{ChangesKeepKinds, FactsHold, GlobalsHold, HasNoRankFault, NodesExact, PassesFacts, TakesKinds};

/// Each value that a run gives to a node is one of which the node's fact holds: kind and rank agree, each known length is
/// the axis's, and an array of bits has only 0 and 1.
pub fn facts_hold()
    ensures { (p : Program) → FactsHold p }
{}

/// Each global name that has a value has one of which the name's fact holds, wherever a run is stopped.
pub fn globals_hold()
    ensures { (p : Program) → GlobalsHold p }
{}

/// No run of a well-typed program ends with RANK.
pub fn no_rank_fault()
    ensures { (p : Program) → HasNoRankFault p }
{}

/// Under the least facts each node has just the fact that the rules give where it is evaluated.
pub fn nodes_exact()
    ensures { (p : Program) → NodesExact p }
{}

/// No function of a well-typed program is given a wrong kind.
pub fn takes_kinds()
    ensures { (p : Program) → TakesKinds p }
{}

/// Under the least facts of a well-typed program what names that are read, arguments of calls and their results were given is
/// what their own facts hold of.
pub fn passes_facts()
    ensures { (p : Program) → PassesFacts p }
{}

/// An indexed assignment of a well-typed program is given entries of numbers, and a value of the kind of its name.
pub fn changes_keep_kinds()
    ensures { (p : Program) → ChangesKeepKinds p }
{}
