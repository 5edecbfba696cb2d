//! A switch of aplc_crun over the numbers from 0 to 9; what it writes is worked out by hand.
//! It must not take an expected answer from a run.

use crate::runner_tests::{Case, runs};
use std::test::Fail;

/// A point where no arm is met. The steps are 1, then 3 for each number, 11 tests of the condition, and the end.
const TURNS: &str = r#"static void f0(void);
static void f0(void) {
int64_t v0;
v0 = 0LL;
while ((v0 < 10LL)) {
switch (v0) {
case 0: {
put_char(97LL);
} break;
case 4: {
put_char(98LL);
} break;
case 5: {
put_char(99LL);
} break;
case 9: {
put_char(100LL);
} break;
default: {
put_char(46LL);
} break;
}
v0 = (v0 + 1LL);
}
}
"#;

#[test]
fn meets_first_and_last_arms(rt: HostRuntime) -> Result<(), Fail> {
    let case = Case {
        text: TURNS,
        input: b"",
        input_fails: &[],
        room: 100,
        answer: Ok(()),
        out: b"a...bc...d",
        faults: 0,
        steps: 43,
        cells: 0,
        peak: 0,
    };
    runs(&rt, rt.alloc(), &case)
}
