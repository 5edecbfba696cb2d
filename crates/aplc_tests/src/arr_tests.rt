//! Arrays of aplc_arr that are made, and the faults of what is none.
//! It must not take an expected answer from `Arr::make`.

use aplc_arr::Arr;
use aplc_scalar::{FaultKind, Kind, in_range};
use std::alloc::{AllocError, Global};
use std::process::Abort;
use std::test::Fail;

fn numbers(
    rt: &impl Abort,
    alloc: Global,
    shape: &[i64],
    ravel: &[i64],
) -> Result<Result<Arr, FaultKind>, AllocError> {
    assert!(rt; shape.len() <= 8);
    assert!(rt; shape.iter().all(|n| *n >= 0));
    assert!(rt; ravel.iter().all(|z| in_range(*z)));
    let lengths = Vec::from_slice(alloc, shape)?;
    let cells = Vec::from_slice(alloc, ravel)?;
    Ok(Arr::make(Kind::Num, lengths, cells))
}

#[test]
fn arrays(rt: HostRuntime) -> Result<(), Fail> {
    let alloc = rt.alloc();
    match numbers(&rt, alloc, &[2, 3], &[1, -20, 3, 4, 5, 6])? {
        Ok(table) => {
            assert_eq!(rt; table.kind(), Kind::Num);
            assert_eq!(rt; table.rank(), 2);
            assert_eq!(rt; table.count(), 6);
            assert_eq!(rt; table.length(1), 3);
            assert_eq!(rt; table.cell(1), -20);
        }
        Err(_) => assert!(rt; false),
    }
    let scalar = numbers(&rt, alloc, &[], &[5])?;
    assert!(rt; scalar.is_ok());
    let short = numbers(&rt, alloc, &[2, 3], &[1])?;
    assert!(rt; matches!(short, Err(FaultKind::Length)));
    let great = numbers(&rt, alloc, &[65536, 65536], &[])?;
    assert!(rt; matches!(great, Err(FaultKind::Limit)));
    let empty = numbers(&rt, alloc, &[2147483647, 2147483647, 0], &[])?;
    assert!(rt; empty.is_ok());
    Ok(())
}
