//! A function that is being written, in its program.
//! It must not know what its steps do.

ghost use Rattle.std.specs.Prelude.{◌≡◌, ◌+◌, ◌<◌, ◌≤◌, ◌^◌, [], length, map, unwrap_or, option_map};
ghost use Rattle.aplc_names.specs.PlainPrograms.{name_number, routine_of};
ghost use Rattle.aplc_core.specs.PlainSteps.{effect_of};
ghost use Rattle.aplc_core.specs.CoreRuns.{steps_at};
ghost use Rattle.aplc_core.specs.Lowering.{lowered_routine};
ghost use Rattle.aplc_gen.specs.Layouts.{the_routine, the_frame, routine_at, frame_of, value_place, flag_place, is_unsure, line_place, slot_place, base};
ghost use Rattle.aplc_gen.specs.Emitted.{scope_at, is_giving};
ghost use Rattle.aplc_gen.specs.Writing.{site_of, lowered_core, slots_at, IsLineNumber, IsShort};

use crate::frame::{Frame, Layout};
use aplc_core::{CoreProgram, SlotId, Step};
use aplc_cprof::Int;
use aplc_names::Scope;
use aplc_syntax::{Function, NameId, Named};
use std::marker::Model;

/// A function of a program, and the variables of both.
#[derive(Drop)]
pub struct Site<'a> {
    core: &'a CoreProgram,
    layout: &'a Layout,
    frame: &'a Frame,
    number: usize,
    first: bool,
}

impl<'a> Model for Site<'a> {
    ghost use Rattle.std.specs.Prelude.{◌≡◌, ◌<◌, length};
    ghost use Rattle.aplc_gen.specs.Layouts.{frame_of};
    ghost use Rattle.aplc_gen.specs.Writing.{Spot, spot_code};

    ghost Value = { Spot };

    ghost coded = { spot_code };

    ghost view = { λ s. record { core = s.core.now; layout = s.layout.now; number = s.number; first = s.first } };

    ghost invariant = { λ s. (s.frame.now ≡ frame_of s.layout.now s.number) × (s.number < length s.core.now.program.functions) };
}

fn number_of(named: Option<Named>) -> Option<u32>
    ensures { result ≡ option_map name_number named }
{
    named.map(|x| x.name.0)
}

impl<'a> Site<'a> {
    /// The function of this number, which has its variables there.
    pub fn new(
        core: &'a CoreProgram,
        layout: &'a Layout,
        frame: &'a Frame,
        number: usize,
        first: bool,
    ) -> Site<'a>
        requires frame { frame.now ≡ frame_of layout.now number }
        requires function { number < length core.now.program.functions }
        ensures { result ≡ record { core = core.now; layout = layout.now; number = number; first = first } }
    {
        Site {
            core,
            layout,
            frame,
            number,
            first,
        }
    }

    /// The run begins with the function: it is no call's.
    pub fn is_first(&self) -> bool
        ensures { result ≡ self.now.first }
    {
        self.first
    }

    pub fn layout(&self) -> &Layout
        ensures { result.now ≡ self.now.layout }
    {
        self.layout
    }

    pub fn frame(&self) -> &Frame
        ensures { result.now ≡ the_frame (site_of self.now) }
    {
        self.frame
    }

    #[tactic(auto, using(crate::proofs::There::function_is))]
    fn function(&self) -> &Function
        ensures routine { the_routine (site_of self.now) ≡ lowered_routine (routine_of self.now.core.program result.now) }
        ensures few { length result.now.lines ≤ 999 }
    {
        &self.core.bound().program().functions.as_slice()[self.number]
    }

    /// The bytes of its name.
    pub fn title(&self) -> &[u8]
        ensures { result.now ≡ (the_routine (site_of self.now)).header.title }
    {
        let names = self.core.bound().program().names.as_slice();
        match names.get(self.function().name.name.0 as usize) {
            None => &[],
            Some(title) => title.as_slice(),
        }
    }

    /// The name of the left argument.
    pub fn left(&self) -> Option<u32>
        ensures { result ≡ (the_routine (site_of self.now)).header.left }
    {
        number_of(self.function().left)
    }

    /// The name of the right argument.
    pub fn right(&self) -> Option<u32>
        ensures { result ≡ (the_routine (site_of self.now)).header.right }
    {
        number_of(self.function().right)
    }

    /// The name of the result.
    pub fn result(&self) -> Option<u32>
        ensures { result ≡ (the_routine (site_of self.now)).header.result }
    {
        number_of(self.function().result)
    }

    /// How many lines it has.
    #[tactic(auto, using(crate::proofs::Sites::lines_are))]
    pub fn lines(&self) -> usize
        ensures lines { result ≡ length (the_routine (site_of self.now)).steps }
        ensures few { result ≤ 999 }
    {
        self.function().lines.as_slice().len()
    }

    /// The steps of a line, counted from 1.
    #[tactic(auto, using(crate::proofs::Sites::steps_are))]
    pub fn steps(&self, line: usize) -> &[Step]
        ensures { map effect_of result.now ≡ unwrap_or (steps_at (the_routine (site_of self.now)).steps line) [] }
    {
        self.core.steps(self.number, line)
    }

    /// What a name is. A label is one of a line.
    #[tactic(auto, using(crate::proofs::Sites::scopes))]
    pub fn scope(&self, name: NameId) -> Scope
        ensures scope { result ≡ scope_at (site_of self.now) name.0 }
        ensures line { IsLineNumber result }
    {
        self.core.bound().scope(self.number, name)
    }

    /// The variable of a name.
    pub fn value(&self, scope: Scope, name: NameId) -> Int
        ensures { result ≡ value_place (site_of self.now) scope name.0 }
    {
        match scope {
            Scope::Local => self.frame.value(name.0),
            _ => self.layout.value(name.0),
        }
    }

    /// The flag of a name.
    pub fn flag(&self, scope: Scope, name: NameId) -> Int
        ensures { result ≡ flag_place (site_of self.now) scope name.0 }
    {
        match scope {
            Scope::Local => self.frame.flag(name.0),
            _ => self.layout.flag(name.0),
        }
    }

    /// Whether a name has a flag.
    pub fn is_unsure(&self, scope: Scope, name: NameId) -> bool
        ensures { result ≡ is_unsure (site_of self.now) scope name.0 }
    {
        match scope {
            Scope::Local => self.frame.is_unsure(name.0),
            _ => self.layout.is_unsure(name.0),
        }
    }

    /// The variable that has the line.
    pub fn line_place(&self) -> u32
        ensures line { result ≡ line_place (site_of self.now) }
        ensures short { IsShort (the_frame (site_of self.now)) }
    {
        self.frame.line()
    }

    /// The variable of a slot.
    pub fn slot(&self, slot: SlotId) -> u32
        requires { slot.0 < slots_at self.now }
        ensures { result ≡ slot_place (site_of self.now) slot.0 }
    {
        self.line_place() + 1 + slot.0
    }

    /// The first variable that is free for values within trees.
    pub fn base(&self) -> u32
        ensures base { result ≡ base (site_of self.now) }
        ensures short { base (site_of self.now) < 2 ^ 31 + 1 }
    {
        self.line_place() + 1 + self.frame.slots()
    }

    /// Whether the result of a function has a value at each of its ends.
    pub fn gives(&self, function: usize) -> bool
        ensures { result ≡ is_giving (frame_of self.now.layout function).sure (routine_at (lowered_core self.now.core) function).header.result }
    {
        self.is_sure(function, self.result_of(function))
    }

    #[tactic(auto, using(crate::proofs::There::results))]
    fn result_of(&self, function: usize) -> Option<u32>
        ensures { result ≡ (routine_at (lowered_core self.now.core) function).header.result }
    {
        match self
            .core
            .bound()
            .program()
            .functions
            .as_slice()
            .get(function)
        {
            None => None,
            Some(header) => number_of(header.result),
        }
    }

    fn is_sure(&self, function: usize, name: Option<u32>) -> bool
        ensures { result ≡ is_giving (frame_of self.now.layout function).sure name }
    {
        match (self.layout.frame(function), name) {
            (Some(frame), Some(name)) => frame.is_sure(name),
            _ => false,
        }
    }
}
