//! The function where a program starts.
//! It must not know what its lines do.

ghost use Rattle.std.specs.Prelude.{◌≡◌, ◌<◌, codes, is_some, true, Some, length};
ghost use Rattle.aplc_syntax.specs.Layout.{is_called};
ghost use Rattle.aplc_names.specs.Outlines.{outline};
ghost use Rattle.aplc_names.specs.Clashes.{is_start};
ghost use Rattle.aplc_names.specs.Scopes.{start_of};
ghost use Rattle.aplc_names.specs.Sums.{main_function};

use crate::outline::is_bare;
use aplc_lex::List;
use aplc_syntax::{Function, NameId, Program};

/// A name is MAIN, where these are the names of the program.
pub fn is_main(names: &[List<u8>], name: NameId) -> bool
    ensures { result ≡ is_called names.now name.0 (codes "MAIN") }
{
    match names.get(name.0 as usize) {
        Some(bytes) => bytes.as_slice() == b"MAIN".as_slice(),
        None => false,
    }
}

fn is_start(names: &[List<u8>], function: &Function) -> bool
    ensures { result ≡ is_start names.now (outline function.now) }
{
    is_main(names, function.name.name) && is_bare(function)
}

/// The first MAIN that neither takes nor gives anything, where there is one.
pub fn main_function(program: &Program) -> &Function
    requires { is_some (main_function program.now) ≡ true }
    ensures { main_function program.now ≡ Some result.now }
{
    let names = program.names.as_slice();
    for function in program.functions.as_slice() {
        if is_start(names, function) {
            return function;
        }
    }
    unreachable!()
}

/// The number of that function, counted from 0.
pub fn start_number(program: &Program) -> usize
    requires { is_some (start_of program.now) ≡ true }
    ensures start { start_of program.now ≡ Some result }
    ensures within { result < length program.now.functions }
{
    let names = program.names.as_slice();
    for (i, function) in program.functions.as_slice().iter().enumerate() {
        if is_start(names, function) {
            return i;
        }
    }
    unreachable!()
}
