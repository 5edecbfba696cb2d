//! Blocks of one statement.
//! They must not know where they are done.

ghost use Rattle.std.specs.Prelude.{◌≡◌, ◌∷◌, [], IfOk};
ghost use Rattle.aplc_collect.specs.Scalars.{checked_stmt};

use aplc_cprof::{CExpr, CStmt, Checked, Int};
use aplc_scalar::FaultKind;
use sqlite_items::Items;
use std::alloc::{AllocError, Global};

/// A block that sets a variable.
pub(crate) fn set_block(alloc: Global, v: Int, value: CExpr) -> Result<Items<CStmt>, AllocError>
    ensures { IfOk result (λ l. l ≡ CStmt.Set v value ∷ []) }
{
    let mut block = Items::new(alloc);
    block.push(CStmt::Set(v, value))?;
    Ok(block)
}

/// A block of checked arithmetic. Of a product the left side goes second.
pub(crate) fn checked_block(
    alloc: Global,
    o: Checked,
    v: Int,
    left: Int,
    right: Int,
) -> Result<Items<CStmt>, AllocError>
    ensures { IfOk result (λ l. l ≡ checked_stmt o v left right ∷ []) }
{
    let (first, second) = match o {
        Checked::Mul => (right, left),
        _ => (left, right),
    };
    let mut block = Items::new(alloc);
    block.push(CStmt::Check(v, o, CExpr::Var(first), CExpr::Var(second)))?;
    Ok(block)
}

/// A block that faults.
pub(crate) fn fault_block(alloc: Global, kind: FaultKind) -> Result<Items<CStmt>, AllocError>
    ensures { IfOk result (λ l. l ≡ CStmt.Fault kind ∷ []) }
{
    let mut block = Items::new(alloc);
    block.push(CStmt::Fault(kind))?;
    Ok(block)
}
