//! What the definitions of runs promise, for those who build on them.
//! It must not hold code that runs.

ghost use Rattle.std.specs.Prelude.{ℕ, List};
ghost use Rattle.aplc_syntax.specs.declared.tree.Program.{Program};
ghost use Rattle.aplc_names.specs.PlainPrograms.{PlainProgram};
ghost use Rattle.aplc_names.specs.RunLaws.{IsFreeOfMarkings, StaysOver, OnlyGrows, GoesOnAtNone, GivesArrays, ChangesAlone};
ghost use Rattle.aplc_names.specs.Eager.{Context};
ghost use Rattle.aplc_names.specs.Balance.{IsAssigningListed, AssignsItsNames, StaysBalanced, BalancesItsNames};

/// What a run comes to, its work and what its nodes are given do not depend on which nodes the account counts.
pub fn free_of_markings()
    ensures { (p : PlainProgram) → IsFreeOfMarkings p }
{}

/// A run that is over stays as it is when more lines may start.
pub fn stays_over()
    ensures { (p : PlainProgram) → StaysOver p }
{}

/// Output and marks with fewer lines are prefixes of those with more.
pub fn only_grows()
    ensures { (p : PlainProgram) → OnlyGrows p }
{}

/// A run goes on only where no more line may start.
pub fn goes_on_at_none()
    ensures { (p : PlainProgram) → GoesOnAtNone p }
{}

/// Each value that a run gives to a node is an array of the language.
pub fn gives_arrays()
    ensures { (p : Program) → GivesArrays p }
{}

/// At the end of each statement the account is the sum of the counts of all names' values and of what callers hold,
/// where each assigned name is listed once: a local one in its function's header, a global one in `gs`.
pub fn stays_balanced()
    ensures { (gs : List ℕ) (p : PlainProgram) → IsAssigningListed gs p → StaysBalanced gs p }
{}

/// In a program that nothing refuses each assigned name is listed once, if all its names are listed.
pub fn assigns_its_names()
    ensures { (p : Program) → AssignsItsNames p }
{}

/// In a program of the grammar that nothing refuses the account at the end of each statement is the sum of the counts of
/// the values of all its names and of what callers hold.
pub fn always_balanced()
    ensures { (p : Program) → BalancesItsNames p }
{}

/// Reading takes a line of the input, and `⎕←` adds the text of its value to the output; all else of the world stays,
/// but for work and what nodes are given.
pub fn changes_alone()
    ensures { (c : Context) → ChangesAlone c }
{}
