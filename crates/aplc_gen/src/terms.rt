//! The code of trees.
//! It must not know lines.

ghost use Rattle.std.specs.Prelude.{◌≡◌, ◌+◌, ◌<◌, ◌≤◌, ◌^◌, ◌∷◌, ◌&&◌, [], true, pos, IfOk, OnOk};
ghost use Rattle.aplc_core.specs.PlainSteps.{term_of};
ghost use Rattle.aplc_gen.specs.Emitted.{name_operand, operand, known_after, read_code, is_minus, is_times, is_constant, checked_of, checked_code, minus_code, tree_code, width};
ghost use Rattle.aplc_gen.specs.Writing.{added, site_of, slots_at, fits_term, IsLineNumber};

use crate::expressions::{emit_guard, literal, number_of};
use crate::known::Known;
use crate::site::Site;
use aplc_core::Tree;
use aplc_cprof::{Builder, CExpr, CStmt, Checked, Int};
use aplc_names::Scope;
use aplc_scalar::ScalarFn;
use aplc_syntax::{NameId, Prim};
use std::alloc::{AllocError, Global};

fn is_minus(function: Prim) -> bool
    ensures { result ≡ is_minus function }
{
    matches!(function, Prim::Scalar(ScalarFn::Sub))
}

fn is_times(function: Prim) -> bool
    ensures { result ≡ is_times function }
{
    matches!(function, Prim::Scalar(ScalarFn::Mul))
}

fn checked(function: Prim) -> Checked
    ensures { result ≡ checked_of function }
{
    match function {
        Prim::Scalar(ScalarFn::Sub) => Checked::Sub,
        Prim::Scalar(ScalarFn::Mul) => Checked::Mul,
        _ => Checked::Add,
    }
}

#[tactic(auto, using(aplc_core::proofs::TermForms::term_forms))]
fn is_constant(site: &Site, tree: &Tree) -> bool
    ensures { result ≡ is_constant (site_of site.now) (term_of tree.now) }
{
    matches!(tree, Tree::Literal(_, _, _))
}

fn name_operand(site: &Site, scope: Scope, name: NameId) -> CExpr
    requires { IsLineNumber scope }
    ensures { result ≡ name_operand (site_of site.now) scope name.0 }
{
    match scope {
        Scope::Label(line) => CExpr::Lit(line),
        _ => CExpr::Var(site.value(scope, name)),
    }
}

/// Where the value of a tree stands, with variables from `free` on not in use.
#[tactic(auto, using(aplc_core::proofs::TermForms::term_forms))]
pub fn operand(alloc: Global, site: &Site, free: u32, tree: &Tree) -> Result<CExpr, AllocError>
    requires { fits_term (slots_at site.now) (term_of tree.now) ≡ true }
    ensures { IfOk result (λ e. e ≡ operand (site_of site.now) free (term_of tree.now)) }
{
    match tree {
        Tree::Literal(_, _, numbers) => literal(alloc, number_of(numbers.as_slice())),
        Tree::Read(_, name) => Ok(name_operand(site, site.scope(*name), *name)),
        Tree::Slot(_, slot) => Ok(CExpr::Var(Int::Local(site.slot(*slot)))),
        Tree::Mono(_, function, argument) => {
            if is_minus(*function) {
                Ok(CExpr::Var(Int::Local(free)))
            } else {
                operand(alloc, site, free, argument.get())
            }
        }
        Tree::Dyad(_, _, _, _) => Ok(CExpr::Var(Int::Local(free))),
        Tree::Index(_, _, _) => Ok(CExpr::Lit(0)),
    }
}

/// The name is read: a fault where a variable may be unset and is.
fn emit_read(
    alloc: Global,
    b: &mut Builder,
    site: &Site,
    known: &Known,
    scope: Scope,
    name: NameId,
) -> Result<(), AllocError>
    ensures { OnOk result (b.new ≡ added (read_code (site_of site.now) known.now scope name.0) b.old) }
{
    match scope {
        Scope::Label(_) => Ok(()),
        _ => {
            if known.has(name.0) {
                return Ok(());
            }
            emit_guard(alloc, b, site.flag(scope, name))
        }
    }
}

/// The value is negated: it is taken from 0.
fn emit_minus(
    alloc: Global,
    b: &mut Builder,
    site: &Site,
    free: u32,
    function: Prim,
    argument: &Tree,
) -> Result<(), AllocError>
    requires { fits_term (slots_at site.now) (term_of argument.now) ≡ true }
    ensures { OnOk result (b.new ≡ added (minus_code free (is_minus function) (operand (site_of site.now) free (term_of argument.now))) b.old) }
{
    if !is_minus(function) {
        return Ok(());
    }
    let value = operand(alloc, site, free, argument)?;
    b.emit(CStmt::Check(Int::Local(free), Checked::Sub, CExpr::Lit(0), value))
}

/// A function of two numbers. A constant factor stands second.
fn check(to: u32, function: Prim, turned: bool, left: CExpr, right: CExpr) -> CStmt
    ensures { result ≡ checked_code to function turned left right }
{
    if turned {
        CStmt::Check(Int::Local(to), checked(function), right, left)
    } else {
        CStmt::Check(Int::Local(to), checked(function), left, right)
    }
}

/// The function of two numbers that stand where their trees say.
fn emit_check(
    alloc: Global,
    b: &mut Builder,
    site: &Site,
    free: u32,
    function: Prim,
    left: &Tree,
    right: &Tree,
) -> Result<(), AllocError>
    requires room { free + 1 < 2 ^ 32 }
    requires left { fits_term (slots_at site.now) (term_of left.now) ≡ true }
    requires right { fits_term (slots_at site.now) (term_of right.now) ≡ true }
    ensures { OnOk result (b.new ≡ added (checked_code free function (is_times function && is_constant (site_of site.now) (term_of left.now)) (operand (site_of site.now) (free + 1) (term_of left.now)) (operand (site_of site.now) free (term_of right.now)) ∷ []) b.old) }
{
    let x = operand(alloc, site, free + 1, left)?;
    let y = operand(alloc, site, free, right)?;
    let turned = is_times(function) && is_constant(site, left);
    b.emit(check(free, function, turned, x, y))
}

/// The code of a tree, with variables from `free` on not in use.
#[cycle(trees)]
#[tactic(auto, using(aplc_core::proofs::TermForms::term_forms))]
pub fn emit_tree(
    alloc: Global,
    b: &mut Builder,
    site: &Site,
    known: &mut Known,
    free: u32,
    tree: &Tree,
) -> Result<(), AllocError>
    requires fits { fits_term (slots_at site.now) (term_of tree.now) ≡ true }
    requires room { free + width (term_of tree.now) < 2 ^ 32 }
    ensures code { OnOk result (b.new ≡ added (tree_code (site_of site.now) known.old free (term_of tree.now)) b.old) }
    ensures known { OnOk result (known.new ≡ known_after known.old (term_of tree.now)) }
{
    match tree {
        Tree::Read(_, name) => {
            emit_read(alloc, b, site, known, site.scope(*name), *name)?;
            known.add(name.0)
        }
        Tree::Mono(_, function, argument) => {
            emit_tree(alloc, b, site, known, free, argument.get())?;
            emit_minus(alloc, b, site, free, *function, argument.get())
        }
        Tree::Dyad(_, function, left, right) => {
            emit_tree(alloc, b, site, known, free, right.get())?;
            emit_tree(alloc, b, site, known, free + 1, left.get())?;
            emit_check(alloc, b, site, free, *function, left.get(), right.get())
        }
        _ => Ok(()),
    }
}
