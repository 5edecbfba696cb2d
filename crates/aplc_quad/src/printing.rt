//! Code that prints one element of a row.
//! It must not know where the row stands.

ghost use Rattle.std.specs.Prelude.{◌≡◌, ◌∷◌, [], IfOk, OnOk, pos};
ghost use Rattle.aplc_cprof.specs.declared.syntax.CExpr.{CExpr};
ghost use Rattle.aplc_cprof.specs.Blocks.{IsKept};
ghost use Rattle.aplc_quad.specs.Printing.{later, is_digit, width_at, is_narrow, digit, number_stmt, element_stmt, gap_stmts, with_code};

use aplc_cprof::{Buf, Builder, CExpr, CStmt, Int, Op, binary};
use sqlite_items::{Boxed, Items};
use std::alloc::{AllocError, Global};

/// How the elements of a row are printed.
#[derive(Clone, Copy)]
pub enum Columns {
    /// Characters, with nothing between them.
    Characters,
    /// Numbers, with a blank between two of them.
    Numbers,
    /// Numbers, each as wide as the cell of its column in this buffer says.
    Justified(Buf),
}

/// Whether it is not the first column.
fn later(alloc: Global, column: Int) -> Result<CExpr, AllocError>
    ensures { IfOk result (λ e. e ≡ later column) }
{
    binary(alloc, Op::Greater, CExpr::Var(column), CExpr::Lit(0))
}

/// Whether the number's text is one digit.
fn is_digit(alloc: Global, v: Int) -> Result<CExpr, AllocError>
    ensures { IfOk result (λ e. e ≡ is_digit v) }
{
    let least = binary(alloc, Op::GreaterEq, CExpr::Var(v), CExpr::Lit(0))?;
    let most = binary(alloc, Op::Less, CExpr::Var(v), CExpr::Lit(10))?;
    binary(alloc, Op::And, least, most)
}

fn width_at(alloc: Global, widths: Buf, column: Int) -> Result<CExpr, AllocError>
    ensures { IfOk result (λ e. e ≡ width_at widths column) }
{
    let place = Boxed::new(alloc, CExpr::Var(column))?;
    Ok(CExpr::Cell(widths, place))
}

/// Whether the column has room for no more than a digit.
fn is_narrow(alloc: Global, widths: Buf, column: Int) -> Result<CExpr, AllocError>
    ensures { IfOk result (λ e. e ≡ is_narrow widths column) }
{
    let width = width_at(alloc, widths, column)?;
    binary(alloc, Op::Less, width, CExpr::Lit(2))
}

/// A block that prints one character.
pub fn character_block(alloc: Global, character: i64) -> Result<Items<CStmt>, AllocError>
    ensures { IfOk result (λ l. l ≡ CStmt.PutChar (CExpr.Lit character) ∷ []) }
{
    let mut block = Items::new(alloc);
    block.push(CStmt::PutChar(CExpr::Lit(character)))?;
    Ok(block)
}

/// A block that prints a digit.
fn digit_block(alloc: Global, v: Int) -> Result<Items<CStmt>, AllocError>
    ensures { IfOk result (λ l. l ≡ CStmt.PutChar (digit v) ∷ []) }
{
    let mut block = Items::new(alloc);
    let digit = binary(alloc, Op::Add, CExpr::Lit(48), CExpr::Var(v))?;
    block.push(CStmt::PutChar(digit))?;
    Ok(block)
}

/// A block that prints a number, justified to a width.
fn number_block(alloc: Global, v: Int, width: CExpr) -> Result<Items<CStmt>, AllocError>
    ensures { IfOk result (λ l. l ≡ CStmt.PutNum (CExpr.Var v) width ∷ []) }
{
    let mut block = Items::new(alloc);
    block.push(CStmt::PutNum(CExpr::Var(v), width))?;
    Ok(block)
}

fn blank_code(alloc: Global, b: &mut Builder, column: Int) -> Result<(), AllocError>
    ensures code { OnOk result (b.new ≡ with_code (gap_stmts Columns.Numbers column) b.old) }
    ensures kept { IsKept b.old b.new }
{
    let test = later(alloc, column)?;
    let blank = character_block(alloc, 32)?;
    b.emit(CStmt::If(test, blank, None))
}

/// Adds code that parts an element from those before it.
pub fn gap_code(
    alloc: Global,
    b: &mut Builder,
    columns: Columns,
    column: Int,
) -> Result<(), AllocError>
    ensures code { OnOk result (b.new ≡ with_code (gap_stmts columns column) b.old) }
    ensures kept { IsKept b.old b.new }
{
    match columns {
        Columns::Characters => Ok(()),
        Columns::Numbers => blank_code(alloc, b, column),
        Columns::Justified(_) => blank_code(alloc, b, column),
    }
}

/// Adds code that prints a number: by its digit where a test says that it has one and needs no blank before it.
fn number_code(
    alloc: Global,
    b: &mut Builder,
    test: CExpr,
    width: CExpr,
    v: Int,
) -> Result<(), AllocError>
    ensures code { OnOk result (b.new ≡ with_code (number_stmt test width v ∷ []) b.old) }
    ensures kept { IsKept b.old b.new }
{
    let digit = digit_block(alloc, v)?;
    let number = number_block(alloc, v, width)?;
    b.emit(CStmt::If(test, digit, Some(number)))
}

fn plain_code(alloc: Global, b: &mut Builder, v: Int) -> Result<(), AllocError>
    ensures code { OnOk result (b.new ≡ with_code (number_stmt (is_digit v) (CExpr.Lit (pos 0)) v ∷ []) b.old) }
    ensures kept { IsKept b.old b.new }
{
    let test = is_digit(alloc, v)?;
    number_code(alloc, b, test, CExpr::Lit(0), v)
}

fn justified_code(
    alloc: Global,
    b: &mut Builder,
    widths: Buf,
    column: Int,
    v: Int,
) -> Result<(), AllocError>
    ensures code { OnOk result (b.new ≡ with_code (number_stmt (is_narrow widths column) (width_at widths column) v ∷ []) b.old) }
    ensures kept { IsKept b.old b.new }
{
    let test = is_narrow(alloc, widths, column)?;
    let width = width_at(alloc, widths, column)?;
    number_code(alloc, b, test, width, v)
}

/// Adds code that prints an element.
pub fn element_code(
    alloc: Global,
    b: &mut Builder,
    columns: Columns,
    column: Int,
    v: Int,
) -> Result<(), AllocError>
    ensures code { OnOk result (b.new ≡ with_code (element_stmt columns column v ∷ []) b.old) }
    ensures kept { IsKept b.old b.new }
{
    match columns {
        Columns::Characters => b.emit(CStmt::PutChar(CExpr::Var(v))),
        Columns::Numbers => plain_code(alloc, b, v),
        Columns::Justified(widths) => justified_code(alloc, b, widths, column, v),
    }
}
