//! Scalar functions of aplc_scalar on rows of the language's tables.
//! It must not take an expected answer from the functions.

use aplc_scalar::{FaultKind, ScalarFn, dyad, identity, in_range, mono};

#[test]
#[tactic(auto, unfolding(aplc_scalar::specs::Scalar::in_range))]
fn applications(rt: HostRuntime) {
    let rows = [
        (ScalarFn::Add, 9223372036854775807, 1, Err(FaultKind::Limit)),
        (
            ScalarFn::Sub,
            -9223372036854775807,
            1,
            Err(FaultKind::Limit),
        ),
        (ScalarFn::Mul, 3, 4, Ok(12)),
        (ScalarFn::Residue, -3, 7, Ok(-2)),
        (ScalarFn::Residue, 0, 7, Ok(7)),
        (ScalarFn::Residue, 3, -7, Ok(2)),
        (ScalarFn::And, 2, 1, Err(FaultKind::Domain)),
        (ScalarFn::Nor, 0, 0, Ok(1)),
    ];
    for (f, a, b, value) in rows {
        if f != ScalarFn::Not && in_range(a) && in_range(b) {
            assert_eq!(rt; dyad(f, a, b), value);
        }
    }
    assert_eq!(rt; mono(ScalarFn::Not, 2), Err(FaultKind::Domain));
    assert_eq!(rt; mono(ScalarFn::Mul, -8), Ok(-1));
    assert_eq!(rt; identity(ScalarFn::Max), Some(-9223372036854775807));
    assert_eq!(rt; identity(ScalarFn::Nand), None);
}
