//! Lays a program out.
//! It must not know how the nodes are carried out.

ghost use Rattle.std.specs.Prelude.{◌≡◌, ◌+◌, ◌∷◌, ◌++◌, [], OnOk, IfOk, length, map};
ghost use Rattle.aplc_cprof.specs.declared.syntax.CStmt.TheVariants as stmt;
ghost use Rattle.aplc_crun.specs.declared.code.Node.TheVariants as form;
ghost use Rattle.aplc_crun.specs.Building.{LaidStmt, LaidBlock, LaidArms, LaidFunctions, OpenedIf, OpenedWhile, place_after, choices_up, arm_size, entry};
ghost use Rattle.aplc_cprof.specs.Machine.{size, total};

use crate::choices::{Choice, Choices};
use crate::code::{Entry, Laid, Node};
use crate::sizes::{after, after_all, after_arms, begin};
use crate::term::laid_term;
use aplc_cprof::{Arm, Buf, CExpr, CFunction, CProgram, CStmt, Checked, Int, List};
use std::alloc::{AllocError, Global};

fn copy_name(alloc: Global, name: &[u8]) -> Result<List<u8>, AllocError>
    ensures { IfOk result (λ c. c ≡ name.now) }
{
    let bytes = Vec::from_slice(alloc, name)?;
    Ok(List::from_vec(bytes))
}

#[tactic(auto, using(crate::proofs::Laid::laid_Set))]
fn lay_set(
    alloc: Global,
    code: &mut Vec<Node>,
    x: Int,
    e: &CExpr,
    next: usize,
) -> Result<(), AllocError>
    ensures { OnOk result (LaidStmt code.old.items code.new.items (stmt.Set x e.now) next) }
{
    let e = laid_term(alloc, e)?;
    code.push(Node::Set(x, e, next))?;
    Ok(())
}

#[tactic(auto, using(crate::proofs::Laid::laid_SetCell))]
fn lay_set_cell(
    alloc: Global,
    code: &mut Vec<Node>,
    p: Buf,
    e: &CExpr,
    f: &CExpr,
    next: usize,
) -> Result<(), AllocError>
    ensures { OnOk result (LaidStmt code.old.items code.new.items (stmt.SetCell p e.now f.now) next) }
{
    let e = laid_term(alloc, e)?;
    let f = laid_term(alloc, f)?;
    code.push(Node::SetCell(p, e, f, next))?;
    Ok(())
}

#[tactic(auto, using(crate::proofs::Laid::laid_SetBuf))]
fn lay_set_buf(code: &mut Vec<Node>, p: Buf, q: Option<Buf>, next: usize) -> Result<(), AllocError>
    ensures { OnOk result (LaidStmt code.old.items code.new.items (stmt.SetBuf p q) next) }
{
    code.push(Node::SetBuf(p, q, next))?;
    Ok(())
}

#[tactic(auto, using(crate::proofs::Laid::laid_Cells))]
fn lay_cells(
    alloc: Global,
    code: &mut Vec<Node>,
    p: Buf,
    e: &CExpr,
    next: usize,
) -> Result<(), AllocError>
    ensures { OnOk result (LaidStmt code.old.items code.new.items (stmt.Cells p e.now) next) }
{
    let e = laid_term(alloc, e)?;
    code.push(Node::Cells(p, e, next))?;
    Ok(())
}

#[tactic(auto, using(crate::proofs::Laid::laid_Check))]
fn lay_check(
    alloc: Global,
    code: &mut Vec<Node>,
    x: Int,
    o: Checked,
    e: &CExpr,
    f: &CExpr,
    next: usize,
) -> Result<(), AllocError>
    ensures { OnOk result (LaidStmt code.old.items code.new.items (stmt.Check x o e.now f.now) next) }
{
    let e = laid_term(alloc, e)?;
    let f = laid_term(alloc, f)?;
    code.push(Node::Check(x, o, e, f, next))?;
    Ok(())
}

#[tactic(auto, using(crate::proofs::Laid::laid_Width))]
fn lay_width(
    alloc: Global,
    code: &mut Vec<Node>,
    x: Int,
    e: &CExpr,
    next: usize,
) -> Result<(), AllocError>
    ensures { OnOk result (LaidStmt code.old.items code.new.items (stmt.Width x e.now) next) }
{
    let e = laid_term(alloc, e)?;
    code.push(Node::Width(x, e, next))?;
    Ok(())
}

#[tactic(auto, using(crate::proofs::Laid::laid_PutNum))]
fn lay_put_num(
    alloc: Global,
    code: &mut Vec<Node>,
    e: &CExpr,
    f: &CExpr,
    next: usize,
) -> Result<(), AllocError>
    ensures { OnOk result (LaidStmt code.old.items code.new.items (stmt.PutNum e.now f.now) next) }
{
    let e = laid_term(alloc, e)?;
    let f = laid_term(alloc, f)?;
    code.push(Node::PutNum(e, f, next))?;
    Ok(())
}

#[tactic(auto, using(crate::proofs::Laid::laid_PutChar))]
fn lay_put_char(
    alloc: Global,
    code: &mut Vec<Node>,
    e: &CExpr,
    next: usize,
) -> Result<(), AllocError>
    ensures { OnOk result (LaidStmt code.old.items code.new.items (stmt.PutChar e.now) next) }
{
    let e = laid_term(alloc, e)?;
    code.push(Node::PutChar(e, next))?;
    Ok(())
}

#[tactic(auto, using(crate::proofs::Laid::laid_ReadText))]
fn lay_read_text(code: &mut Vec<Node>, p: Buf, next: usize) -> Result<(), AllocError>
    ensures { OnOk result (LaidStmt code.old.items code.new.items (stmt.ReadText p) next) }
{
    code.push(Node::ReadText(p, next))?;
    Ok(())
}

#[tactic(auto, using(crate::proofs::Laid::laid_ReadNums))]
fn lay_read_nums(code: &mut Vec<Node>, p: Buf, next: usize) -> Result<(), AllocError>
    ensures { OnOk result (LaidStmt code.old.items code.new.items (stmt.ReadNums p) next) }
{
    code.push(Node::ReadNums(p, next))?;
    Ok(())
}

#[tactic(auto, using(crate::proofs::Laid::laid_ReadCount))]
fn lay_read_count(code: &mut Vec<Node>, x: Int, next: usize) -> Result<(), AllocError>
    ensures { OnOk result (LaidStmt code.old.items code.new.items (stmt.ReadCount x) next) }
{
    code.push(Node::ReadCount(x, next))?;
    Ok(())
}

#[tactic(auto, using(crate::proofs::Laid::laid_At))]
fn lay_at(
    alloc: Global,
    code: &mut Vec<Node>,
    name: &[u8],
    line: i64,
    next: usize,
) -> Result<(), AllocError>
    ensures { OnOk result (LaidStmt code.old.items code.new.items (stmt.At name.now line) next) }
{
    let name = copy_name(alloc, name)?;
    code.push(Node::At(name, line, next))?;
    Ok(())
}

/// The arms' numbers, each with the place where its arm begins. The first arm's statements stand at a place.
fn place_arms(
    alloc: Global,
    at: usize,
    arms: &[Arm],
    next: usize,
) -> Result<Vec<Choice>, AllocError>
    ensures { IfOk result (λ choices. choices.items ≡ choices_up at arms.now next) }
{
    let mut choices = Vec::new(alloc);
    let mut place = at;
    for arm in arms {
        let body = arm.body.as_slice();
        let here = begin(body, place, next);
        choices.push(Choice {
            value: arm.value,
            at: here,
        })?;
        place = after_all(place, body);
    }
    Ok(choices)
}

#[tactic(auto, using(crate::proofs::Laid::laid_Free))]
fn lay_free(code: &mut Vec<Node>, p: Buf, next: usize) -> Result<(), AllocError>
    ensures { OnOk result (LaidStmt code.old.items code.new.items (stmt.Free p) next) }
{
    code.push(Node::Free(p, next))?;
    Ok(())
}

#[tactic(auto, using(crate::proofs::Laid::laid_Call))]
fn lay_call(code: &mut Vec<Node>, f: u32, next: usize) -> Result<(), AllocError>
    ensures { OnOk result (LaidStmt code.old.items code.new.items (stmt.Call f) next) }
{
    code.push(Node::Call(f, next))?;
    Ok(())
}

/// A condition with no other side, before the statements that it guards.
#[tactic(auto, using(crate::proofs::Laid::opened_if))]
fn open_if(
    alloc: Global,
    code: &mut Vec<Node>,
    e: &CExpr,
    a: &[CStmt],
    next: usize,
) -> Result<(), AllocError>
    ensures { OnOk result (OpenedIf code.old.items code.new.items e.now (entry a.now (length code.old.items + 1) next) next) }
{
    let e = laid_term(alloc, e)?;
    let start = code.len() + 1;
    let met = begin(a, start, next);
    code.push(Node::If(e, met, next))?;
    Ok(())
}

/// A condition, before the statements of its two sides.
#[tactic(auto, using(crate::proofs::Laid::opened_else))]
fn open_else(
    alloc: Global,
    code: &mut Vec<Node>,
    e: &CExpr,
    a: &[CStmt],
    o: &[CStmt],
    next: usize,
) -> Result<(), AllocError>
    ensures { OnOk result (OpenedIf code.old.items code.new.items e.now (entry a.now (length code.old.items + 1) next) (entry o.now (place_after (length code.old.items + 1) (total (map size a.now))) next)) }
{
    let e = laid_term(alloc, e)?;
    let start = code.len() + 1;
    let met = begin(a, start, next);
    let middle = after_all(start, a);
    let other = begin(o, middle, next);
    code.push(Node::If(e, met, other))?;
    Ok(())
}

/// A loop, before its statements.
#[tactic(auto, using(crate::proofs::Laid::opened_while))]
fn open_while(
    alloc: Global,
    code: &mut Vec<Node>,
    e: &CExpr,
    a: &[CStmt],
    next: usize,
) -> Result<(), AllocError>
    ensures { OnOk result (OpenedWhile code.old.items code.new.items e.now (entry a.now (length code.old.items + 1) (length code.old.items)) next) }
{
    let e = laid_term(alloc, e)?;
    let at = code.len();
    let start = at + 1;
    let body = begin(a, start, at);
    code.push(Node::While(e, body, next))?;
    Ok(())
}

/// A switch, before the statements of its arms and of its default.
#[tactic(auto, using(crate::proofs::Laid::opened_switch))]
fn open_switch(
    alloc: Global,
    code: &mut Vec<Node>,
    x: Int,
    arms: &[Arm],
    d: &[CStmt],
    next: usize,
) -> Result<(), AllocError>
    ensures { OnOk result (code.new.items ≡ code.old.items ++ form.Switch x (choices_up (length code.old.items + 1) arms.now next) (entry d.now (place_after (length code.old.items + 1) (total (map arm_size arms.now))) next) ∷ []) }
{
    let start = code.len() + 1;
    let choices = place_arms(alloc, start, arms, next)?;
    let middle = after_arms(start, arms);
    let other = begin(d, middle, next);
    code.push(Node::Switch(x, Choices::new(choices), other))?;
    Ok(())
}

fn lay_node(code: &mut Vec<Node>, node: Node) -> Result<(), AllocError>
    ensures { OnOk result (code.new.items ≡ code.old.items ++ node ∷ []) }
{
    code.push(node)?;
    Ok(())
}

#[cycle(lays)]
#[tactic(auto, using(crate::proofs::Laid::lays))]
fn lay_stmt(alloc: Global, code: &mut Vec<Node>, x: &CStmt, next: usize) -> Result<(), AllocError>
    ensures { OnOk result (LaidStmt code.old.items code.new.items x.now next) }
{
    match x {
        CStmt::Set(x, e) => lay_set(alloc, code, *x, e, next),
        CStmt::SetCell(p, e, f) => lay_set_cell(alloc, code, *p, e, f, next),
        CStmt::SetBuf(p, q) => lay_set_buf(code, *p, *q, next),
        CStmt::Cells(p, e) => lay_cells(alloc, code, *p, e, next),
        CStmt::Check(x, o, e, f) => lay_check(alloc, code, *x, *o, e, f, next),
        CStmt::Width(x, e) => lay_width(alloc, code, *x, e, next),
        CStmt::PutNum(e, f) => lay_put_num(alloc, code, e, f, next),
        CStmt::PutChar(e) => lay_put_char(alloc, code, e, next),
        CStmt::ReadText(p) => lay_read_text(code, *p, next),
        CStmt::ReadNums(p) => lay_read_nums(code, *p, next),
        CStmt::ReadCount(x) => lay_read_count(code, *x, next),
        CStmt::At(name, line) => lay_at(alloc, code, name.as_slice(), *line, next),
        CStmt::Enter => lay_node(code, Node::Enter(next)),
        CStmt::Leave => lay_node(code, Node::Leave(next)),
        CStmt::Free(p) => lay_free(code, *p, next),
        CStmt::Fault(kind) => lay_node(code, Node::Fault(*kind)),
        CStmt::Call(f) => lay_call(code, *f, next),
        CStmt::Return => lay_node(code, Node::Return),
        CStmt::If(e, a, o) => match o {
            None => {
                open_if(alloc, code, e, a.as_slice(), next)?;
                lay_block(alloc, code, a.as_slice(), next)?;
                Ok(())
            }
            Some(o) => {
                open_else(alloc, code, e, a.as_slice(), o.as_slice(), next)?;
                lay_block(alloc, code, a.as_slice(), next)?;
                lay_block(alloc, code, o.as_slice(), next)?;
                Ok(())
            }
        },
        CStmt::While(e, a) => {
            let at = code.len();
            open_while(alloc, code, e, a.as_slice(), next)?;
            lay_block(alloc, code, a.as_slice(), at)?;
            Ok(())
        }
        CStmt::Switch(x, arms, d) => {
            open_switch(alloc, code, *x, arms.as_slice(), d.as_slice(), next)?;
            lay_arms(alloc, code, arms.as_slice(), next)?;
            lay_block(alloc, code, d.as_slice(), next)?;
            Ok(())
        }
    }
}

#[cycle(lays)]
#[tactic(auto, using(crate::proofs::Laid::lays))]
fn lay_block(
    alloc: Global,
    code: &mut Vec<Node>,
    xs: &[CStmt],
    next: usize,
) -> Result<(), AllocError>
    ensures { OnOk result (LaidBlock code.old.items code.new.items xs.now next) }
{
    let count = xs.len();
    if count == 0 {
        return Ok(());
    }
    let last = count - 1;
    for i in 0..last {
        let x = &xs[i];
        let next_one = after(code.len(), x);
        lay_stmt(alloc, code, x, next_one)?;
    }
    let x = &xs[last];
    lay_stmt(alloc, code, x, next)?;
    Ok(())
}

#[cycle(lays)]
#[tactic(auto, using(crate::proofs::Laid::lays))]
fn lay_arms(
    alloc: Global,
    code: &mut Vec<Node>,
    arms: &[Arm],
    next: usize,
) -> Result<(), AllocError>
    ensures { OnOk result (LaidArms code.old.items code.new.items arms.now next) }
{
    for arm in arms {
        lay_block(alloc, code, arm.body.as_slice(), next)?;
    }
    Ok(())
}

/// The nodes of all functions, and where each begins.
#[derive(Drop)]
struct Placed {
    nodes: Vec<Node>,
    entries: Vec<Entry>,
}

#[tactic(auto, using(crate::proofs::Laid::programs))]
fn lay_functions(alloc: Global, functions: &[CFunction]) -> Result<Placed, AllocError>
    ensures functions { IfOk result (λ l. LaidFunctions l.nodes.items l.entries.items functions.now) }
    ensures count { IfOk result (λ l. length l.entries.items ≡ length functions.now) }
{
    let mut nodes = Vec::new(alloc);
    let mut entries = Vec::new(alloc);
    nodes.push(Node::End)?;
    for f in functions {
        let body = f.body.as_slice();
        let at = begin(body, nodes.len(), 0);
        lay_block(alloc, &mut nodes, body, 0)?;
        entries.push(Entry {
            at,
            ints: f.ints as usize,
            bufs: f.bufs as usize,
        })?;
    }
    Ok(Placed { nodes, entries })
}

/// Lays a program out, and drops it.
pub fn lay(alloc: Global, program: CProgram) -> Result<Laid, AllocError>
    ensures functions { IfOk result (λ l. LaidFunctions l.nodes.items l.entries.items program.functions) }
    ensures count { IfOk result (λ l. length l.entries.items ≡ length program.functions) }
    ensures tables { IfOk result (λ l. l.tables.items ≡ program.tables) }
{
    let CProgram {
        tables,
        functions,
        ints: _,
        bufs: _,
    } = program;
    let placed = lay_functions(alloc, functions.as_slice())?;
    let Placed { nodes, entries } = placed;
    Ok(Laid {
        nodes,
        entries,
        tables: tables.into_vec(),
    })
}
