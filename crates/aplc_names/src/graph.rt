//! What is reached from the rows of a graph.
//! It must not know what the rows stand for.

ghost use Rattle.std.specs.Prelude.{◌≡◌, ℕ, ◌++◌, ◌∷◌, [], OnOk, IfOk, length, slice_set, true, if◌then◌else◌};
ghost use Rattle.std.specs.List.{slice_get};
ghost use Rattle.aplc_names.specs.Graphs.{row_of, is_free, is_set, IsMarked, Spreads, IsGraph, IsReach, AreReach};

use aplc_lex::List;
use std::alloc::{AllocError, Global};

fn is_free(marks: &[bool], at: usize) -> bool
    ensures { result ≡ is_free (slice_get marks.now at) }
{
    match marks.get(at) {
        Some(marked) => !*marked,
        None => false,
    }
}

/// There is a mark at this place.
pub fn is_set(marks: &[bool], at: usize) -> bool
    ensures { result ≡ is_set (slice_get marks.now at) }
{
    match marks.get(at) {
        Some(marked) => *marked,
        None => false,
    }
}

/// Row `at`, or an empty one.
pub fn row(graph: &[List<usize>], at: usize) -> &[usize]
    ensures { result.now ≡ row_of graph.now at }
{
    match graph.get(at) {
        Some(row) => row.as_slice(),
        None => &[],
    }
}

/// Marks a place and lists it, unless it is marked.
fn visit(at: usize, marks: &mut Vec<bool>, todo: &mut Vec<usize>) -> Result<(), AllocError>
    ensures marks { OnOk result (marks.new.items ≡ (if is_free (slice_get marks.old.items at) then slice_set marks.old.items at true else marks.old.items)) }
    ensures todo { OnOk result (todo.new.items ≡ (if is_free (slice_get marks.old.items at) then todo.old.items ++ at ∷ [] else todo.old.items)) }
{
    if !is_free(marks, at) {
        return Ok(());
    }
    todo.push(at)?;
    marks[at] = true;
    Ok(())
}

/// Marks and lists the entries of a row that aren't marked.
pub fn spread(row: &[usize], marks: &mut Vec<bool>, todo: &mut Vec<usize>) -> Result<(), AllocError>
    ensures { OnOk result (Spreads row.now (length row.now) marks.old.items todo.old.items marks.new.items todo.new.items) }
{
    for at in row {
        visit(*at, marks, todo)?;
    }
    Ok(())
}

/// So many places without a mark.
pub fn blank(alloc: Global, size: usize) -> Result<Vec<bool>, AllocError>
    ensures size { IfOk result (λ v. length v.items ≡ size) }
    ensures none { IfOk result (λ v. (j : ℕ) → IsMarked v.items j → ⊥) }
{
    vec![in alloc; false; size]
}

/// What is reached from a row by one edge or more.
pub fn reach(alloc: Global, graph: &[List<usize>], from: usize) -> Result<Vec<bool>, AllocError>
    requires { IsGraph graph.now }
    ensures { IfOk result (λ v. IsReach graph.now from v.items) }
{
    let mut marks = blank(alloc, graph.len())?;
    let mut todo = Vec::new(alloc);
    spread(row(graph, from), &mut marks, &mut todo)?;
    'waiting: loop {
        match todo.pop() {
            Some(k) => spread(row(graph, k), &mut marks, &mut todo)?,
            None => return Ok(marks),
        }
    }
}

/// What is reached from each row.
pub fn reaches(alloc: Global, graph: &[List<usize>]) -> Result<Vec<List<bool>>, AllocError>
    requires { IsGraph graph.now }
    ensures { IfOk result (λ v. AreReach graph.now v.items) }
{
    let mut rows = Vec::new(alloc);
    for i in 0..graph.len() {
        let marks = reach(alloc, graph, i)?;
        rows.push(List::from_vec(marks))?;
    }
    Ok(rows)
}
