//! The limits of a statement, and its first refusal.
//! It must not make trees.

ghost use Rattle.std.specs.Prelude.{◌≡◌, ◌≤◌, ◌<◌, ◌+◌, ◌-◌, ◌^◌, IfOk, IfErr, IfSome};
ghost use Rattle.aplc_syntax.specs.Programs.{too_deep};
ghost use Rattle.aplc_syntax.specs.Refusals.{takes_nothing, begins_argument, is_stray, stray, RefusesIn};
ghost use Rattle.aplc_syntax.specs.Building.{counted, count_from};
ghost use Rattle.aplc_syntax.specs.Seen.{IsChecked, Begins, nearer, formless_stop};
ghost use Rattle.aplc_lex.specs.declared.token.Stop.{Stop};

use crate::reading::read;
use crate::step::Step;
use crate::word::{Arity, Role, Word, WordKind};
use aplc_lex::{Refusal, Stop};
use std::alloc::Global;

const BAD_FORM: u8 = 7;

const DEEP_NESTING: u8 = 8;

const MANY_NODES: u8 = 9;

const NO_FUNCTION: u8 = 13;

/// How many parentheses and brackets of a statement may be open.
const NESTING: u64 = 32;

/// How many nodes a statement may have.
const NODES: u64 = 256;

/// The place of the first parenthesis or bracket that is opened where too many are open.
fn too_deep(words: &[Word]) -> Option<u32>
    ensures { result ≡ too_deep words.now 0 }
{
    let mut depth: u64 = 0;
    for word in words {
        match word.kind {
            WordKind::Open | WordKind::OpenBracket => {
                if depth < NESTING {
                    depth += 1;
                } else {
                    return Some(word.place);
                }
            }
            WordKind::Close | WordKind::CloseBracket => depth = depth.saturating_sub(1),
            _ => {}
        }
    }
    None
}

fn takes_nothing(role: Role) -> bool
    ensures { result ≡ takes_nothing role }
{
    matches!(
        role,
        Role::Variable | Role::Function(Arity::Niladic) | Role::Procedure(Arity::Niladic)
    )
}

fn begins_argument(kind: WordKind) -> bool
    ensures { result ≡ begins_argument kind }
{
    match kind {
        WordKind::Name(role, _) => takes_nothing(role),
        WordKind::Number(_)
        | WordKind::Text(_)
        | WordKind::Open
        | WordKind::TextInput
        | WordKind::NumsInput => true,
        _ => false,
    }
}

fn is_stray(first: WordKind, second: WordKind) -> bool
    ensures { result ≡ is_stray first second }
{
    match first {
        WordKind::Name(Role::Variable, _) => begins_argument(second),
        _ => false,
    }
}

/// The place of the first name that is no function and stands before an argument.
fn stray(words: &[Word]) -> Option<u32>
    ensures { result ≡ stray words.now }
{
    let mut rest = words;
    while let [first, tail @ ..] = rest {
        match tail {
            [second, ..] => {
                if is_stray(first.kind, second.kind) {
                    return Some(first.place);
                }
            }
            [] => return None,
        }
        rest = tail;
    }
    None
}

/// How many nodes are made when a step goes on from so many.
fn counted(step: Step, nodes: u64) -> u64
    requires { nodes + 1 < 2 ^ 64 }
    ensures value { result ≡ counted step nodes }
    ensures one { result ≤ nodes + 1 }
{
    match step {
        Step::More(_)
        | Step::List
        | Step::Gap
        | Step::Entry
        | Step::Paren
        | Step::Assign
        | Step::Branch(_) => nodes,
        Step::AssignAt => nodes.saturating_sub(1),
        _ => nodes + 1,
    }
}

/// How many nodes steps make.
fn count(steps: &[Step]) -> u64
    ensures { result ≡ count_from 0 steps.now }
{
    let mut nodes: u64 = 0;
    for step in steps {
        nodes = counted(*step, nodes);
    }
    nodes
}

fn refused(number: u8, place: u32) -> Stop
    ensures { result ≡ Stop.Refused (record { number = number; place = place }) }
{
    Stop::Refused(Refusal {
        number,
        place: place as u64,
    })
}

/// The steps of a statement that begins at `first`, or its first refusal.
pub fn checked(alloc: Global, first: u32, words: &[Word]) -> Result<Vec<Step>, Stop>
    requires begins { Begins words.now first }
    requires near { IfSome (stray words.now) (λ q. first ≤ q) }
    ensures checked { IfOk result (λ v. IsChecked words.now v.items) }
    ensures refused { IfErr result (RefusesIn words.now) }
{
    let name = stray(words);
    match too_deep(words) {
        Some(place) => return Err(nearer(place, name)),
        None => {}
    }
    match read(alloc, words) {
        Err(_) => Err(Stop::Memory),
        Ok(None) => Err(formless(first, name)),
        Ok(Some(steps)) => {
            if count(&steps) > NODES {
                return Err(refused(MANY_NODES, first));
            }
            match name {
                Some(place) => Err(refused(NO_FUNCTION, place)),
                None => Ok(steps),
            }
        }
    }
}

/// The nearer of a bracket too many and a stray name.
fn nearer(place: u32, name: Option<u32>) -> Stop
    ensures { result ≡ nearer place name }
{
    match name {
        Some(q) => {
            if q < place {
                return refused(NO_FUNCTION, q);
            }
            refused(DEEP_NESTING, place)
        }
        None => refused(DEEP_NESTING, place),
    }
}

/// The refusal of words that have no form.
fn formless(first: u32, name: Option<u32>) -> Stop
    ensures { result ≡ formless_stop first name }
{
    match name {
        Some(q) => refused(NO_FUNCTION, q),
        None => refused(BAD_FORM, first),
    }
}
