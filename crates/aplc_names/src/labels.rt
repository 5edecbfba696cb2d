//! The numbers of the lines that have labels.
//! It must not know what labels are for.

ghost use Rattle.std.specs.Prelude.{◌≡◌, ◌≤◌, ◌+◌, ◌++◌, map, IfOk, All, length};
ghost use Rattle.aplc_syntax.specs.declared.tree.Function.{Function};
ghost use Rattle.aplc_names.specs.Outlines.{lines_from};
ghost use Rattle.aplc_names.specs.Lookups.{label_lines};

use aplc_lex::List;
use aplc_syntax::{Function, Line};
use std::alloc::{AllocError, Global};

/// The numbers of the lines of a function that have labels, counted from 1.
fn label_lines(alloc: Global, lines: &[Line]) -> Result<Vec<i64>, AllocError>
    requires { length lines.now ≤ 999 }
    ensures { IfOk result (λ v. v.items ≡ lines_from 1 lines.now) }
{
    let mut out = Vec::new(alloc);
    let mut number = 1;
    for line in lines {
        if line.label.is_some() {
            out.push(number)?;
        }
        number += 1;
    }
    Ok(out)
}

/// The same for each of these functions.
pub fn label_lines_of(alloc: Global, functions: &[Function]) -> Result<Vec<List<i64>>, AllocError>
    requires { All (λ (f : Function). length f.lines ≤ 999) functions.now }
    ensures { IfOk result (λ v. v.items ≡ map label_lines functions.now) }
{
    let mut out = Vec::new(alloc);
    for function in functions {
        out.push(List::from_vec(label_lines(alloc, function.lines.as_slice())?))?;
    }
    Ok(out)
}
