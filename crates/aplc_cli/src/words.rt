//! The words of the command line.
//! It must not know what a command does.

ghost use Rattle.std.specs.Prelude.{◌≡◌, ◌≤◌, map, option_map, IfSome, IfOk};
ghost use Rattle.std.specs.String.{string_bytes};
ghost use Rattle.aplc_cli.specs.Words.{most_steps, is_name, steps, on_file, command};

use crate::digits::magnitude;

/// The most steps that `--steps` may name.
const MOST_STEPS: u64 = 1_000_000_000_000_000;

/// The steps of a run without `--steps`.
const DEFAULT_STEPS: u64 = 1_000_000_000;

/// What is done with the file.
#[derive(Clone, Copy, Debug, PartialEq, Eq)]
pub enum Action {
    /// It is compiled, and its text handed to the host.
    Compile,
    /// Besides, its text is carried out for at most so many steps.
    Run(u64),
    /// It is a C text, and is carried out for at most so many steps.
    Exec(u64),
}

/// What the words ask for.
#[derive(Clone, Copy)]
pub struct Asked<'a> {
    /// The name of the file.
    pub name: &'a str,
    pub action: Action,
}

fn is_name(word: &str) -> bool
    ensures { result ≡ is_name word.now }
{
    match word.as_bytes() {
        [] => false,
        [first, ..] => *first != b'-',
    }
}

/// A count of steps, from 1 to `MOST_STEPS`, in no more than 16 digits.
fn steps(word: &str) -> Option<u64>
    ensures value { result ≡ steps word.now }
    ensures most { IfSome result (λ m. m ≤ most_steps) }
{
    if word.len() > 16 {
        return None;
    }
    match magnitude(word.as_bytes()) {
        Some(m) if 0 < m && m <= MOST_STEPS => Some(m),
        _ => None,
    }
}

fn on_file<'a>(action: Action, name: &'a str) -> Option<Asked<'a>>
    ensures { option_map (λ a. record { name = a.name.now; action = a.action }) result ≡ on_file action name.now }
{
    if is_name(name) {
        Some(Asked { name, action })
    } else {
        None
    }
}

/// The command, where the words are FILE, `--run` or `--exec` with FILE, or these with `--steps M` before FILE.
pub fn read_words(words: &[String]) -> Option<Asked<'_>>
    ensures { option_map (λ a. record { name = a.name.now; action = a.action }) result ≡ command (map string_bytes words.now) }
{
    match words {
        [name] => on_file(Action::Compile, name.as_str()),
        [run, name] if run.as_str() == "--run" => {
            on_file(Action::Run(DEFAULT_STEPS), name.as_str())
        }
        [exec, name] if exec.as_str() == "--exec" => {
            on_file(Action::Exec(DEFAULT_STEPS), name.as_str())
        }
        [run, word, count, name] if run.as_str() == "--run" && word.as_str() == "--steps" => {
            on_file(Action::Run(steps(count.as_str())?), name.as_str())
        }
        [exec, word, count, name] if exec.as_str() == "--exec" && word.as_str() == "--steps" => {
            on_file(Action::Exec(steps(count.as_str())?), name.as_str())
        }
        _ => None,
    }
}
