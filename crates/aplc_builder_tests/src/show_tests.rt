//! Arrays, and the texts that `show` gives them.
//! It must not take an expected text from a run.

ghost use Rattle.std.specs.Prelude.{◌≡◌};
ghost use Rattle.aplc_arr.specs.Arrays.{is_cell};

use crate::display_cases::{CASES, Case};
use aplc_arr::Arr;
use aplc_quad::show;
use aplc_scalar::{Kind, in_range};
use std::alloc::Global;
use std::process::Abort;
use std::test::Fail;

fn is_cell(kind: Kind, cell: i64) -> bool
    ensures { result ≡ is_cell kind cell }
{
    match kind {
        Kind::Num => in_range(cell),
        Kind::Char => (0..55296).contains(&cell) || (57344..1114112).contains(&cell),
    }
}

fn shows(rt: &impl Abort, alloc: Global, case: &Case<'_>) -> Result<(), Fail> {
    assert!(rt; case.shape.len() <= 8);
    assert!(rt; case.shape.iter().all(|n| *n >= 0));
    assert!(rt; case.cells.iter().all(|z| is_cell(case.kind, *z)));
    let shape = Vec::from_slice(alloc, case.shape)?;
    let cells = Vec::from_slice(alloc, case.cells)?;
    match Arr::make(case.kind, shape, cells) {
        Ok(array) => {
            let text = show(alloc, &array)?;
            assert_eq!(rt; text.as_slice(), case.text.as_bytes());
        }
        Err(kind) => assert_eq!(rt; Some(kind), None),
    }
    Ok(())
}

#[test]
fn texts(rt: HostRuntime) -> Result<(), Fail> {
    for case in &CASES {
        shows(&rt, rt.alloc(), case)?;
    }
    Ok(())
}
