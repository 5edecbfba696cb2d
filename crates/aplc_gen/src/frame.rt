//! The variables of a function, and those of a program.
//! They must not know what the code does with them.

ghost use Rattle.std.specs.Prelude.{◌≡◌, ◌+◌, ◌<◌, ◌≤◌, ◌^◌, length, slice_get, option_copied};
ghost use Rattle.aplc_names.specs.States.{is_among};
ghost use Rattle.aplc_cprof.specs.declared.syntax.Int.TheVariants as int;
ghost use Rattle.aplc_gen.specs.Layouts.{place_in, frame_of, global_base, global_ints, global_value, global_flag, function_place};
ghost use Rattle.aplc_gen.specs.Writing.{IsShort, HasShortLists};

use crate::names::Names;
use aplc_cprof::{Int, List};
use std::alloc::{AllocError, Global};
use std::marker::Model;

/// The variables of a function.
#[derive(Drop)]
pub struct Frame {
    names: Names,
    unsure: Names,
    slots: u32,
    sure: Names,
}

impl Model for Frame {
    ghost use Rattle.aplc_gen.specs.Layouts.{Frame};
    ghost use Rattle.aplc_gen.specs.Writing.{frame_code, IsShort};

    ghost Value = { Frame };

    ghost coded = { frame_code };

    ghost view = { λ f. record { names = f.names; unsure = f.unsure; slots = f.slots; sure = f.sure } };

    ghost invariant = { λ f. IsShort record { names = f.names; unsure = f.unsure; slots = f.slots; sure = f.sure } };
}

impl Frame {
    /// The variables of a function: those of these names, their flags and this many slots.
    pub fn new(names: Names, unsure: Names, slots: u32, sure: Names) -> Frame
        requires short { length names + length unsure + slots < 2 ^ 31 }
        ensures { result ≡ record { names = names; unsure = unsure; slots = slots; sure = sure } }
    {
        Frame {
            names,
            unsure,
            slots,
            sure,
        }
    }

    /// The variable of a local name.
    pub fn value(&self, name: u32) -> Int
        ensures { result ≡ int.Local (place_in self.now.names name) }
    {
        Int::Local(self.names.place(name) as u32)
    }

    /// The flag of a local name that has one.
    pub fn flag(&self, name: u32) -> Int
        ensures { result ≡ int.Local (length self.now.names + place_in self.now.unsure name) }
    {
        Int::Local(self.names.len() as u32 + self.unsure.place(name) as u32)
    }

    /// The local names that have a variable.
    pub fn names(&self) -> &Names
        ensures names { result.now ≡ self.now.names }
        ensures short { IsShort self.now }
    {
        &self.names
    }

    pub fn is_unsure(&self, name: u32) -> bool
        ensures { result ≡ is_among name self.now.unsure }
    {
        self.unsure.has(name)
    }

    pub fn is_sure(&self, name: u32) -> bool
        ensures { result ≡ is_among name self.now.sure }
    {
        self.sure.has(name)
    }

    /// The names that have a value wherever a branch may lead, and at the end.
    pub fn sure(&self) -> &Names
        ensures { result.now ≡ self.now.sure }
    {
        &self.sure
    }

    /// How many flags it has.
    pub fn flags(&self) -> u32
        ensures flags { result ≡ length self.now.unsure }
        ensures short { IsShort self.now }
    {
        self.unsure.len() as u32
    }

    /// The number of the variable of the first flag.
    pub fn first_flag(&self) -> u32
        ensures flag { result ≡ length self.now.names }
        ensures short { IsShort self.now }
    {
        self.names.len() as u32
    }

    pub fn slots(&self) -> u32
        ensures slots { result ≡ self.now.slots }
        ensures short { IsShort self.now }
    {
        self.slots
    }

    /// The number of the variable that has the line.
    pub fn line(&self) -> u32
        ensures line { result ≡ length self.now.names + length self.now.unsure }
        ensures short { IsShort self.now }
    {
        self.names.len() as u32 + self.unsure.len() as u32
    }
}

/// The variables of a program.
#[derive(Drop)]
pub struct Layout {
    globals: Names,
    unsure: Names,
    called: Names,
    counted: bool,
    frames: List<Frame>,
}

impl Model for Layout {
    ghost use Rattle.aplc_gen.specs.Layouts.{Layout};
    ghost use Rattle.aplc_gen.specs.Writing.{layout_code, HasShortLists};

    ghost Value = { Layout };

    ghost coded = { layout_code };

    ghost view = { λ y. record { globals = y.globals; unsure = y.unsure; called = y.called; counted = y.counted; frames = y.frames } };

    ghost invariant = { λ y. HasShortLists record { globals = y.globals; unsure = y.unsure; called = y.called; counted = y.counted; frames = y.frames } };
}

impl Layout {
    /// The variables of a program, with those of each function by its number.
    pub fn new(
        globals: Names,
        unsure: Names,
        called: Names,
        counted: bool,
        frames: Vec<Frame>,
    ) -> Layout
        requires short { HasShortLists record { globals = globals; unsure = unsure; called = called; counted = counted; frames = frames.items } }
        ensures { result ≡ record { globals = globals; unsure = unsure; called = called; counted = counted; frames = frames.items } }
    {
        Layout {
            globals,
            unsure,
            called,
            counted,
            frames: List::from_vec(frames),
        }
    }

    /// The number of the first global variable that is not for calls.
    fn base(&self) -> u32
        ensures base { result ≡ global_base self.now }
        ensures short { HasShortLists self.now }
    {
        if self.called.len() == 0 { 0 } else { 5 }
    }

    /// How many global variables there are.
    pub fn ints(&self) -> u32
        ensures { result ≡ global_ints self.now }
    {
        self.base() + self.globals.len() as u32 + self.unsure.len() as u32
    }

    /// The variable of a global name.
    pub fn value(&self, name: u32) -> Int
        ensures { result ≡ global_value self.now name }
    {
        Int::Global(self.base() + self.globals.place(name) as u32)
    }

    /// The flag of a global name that has one.
    pub fn flag(&self, name: u32) -> Int
        ensures { result ≡ global_flag self.now name }
    {
        let flags = self.base() + self.globals.len() as u32;
        Int::Global(flags + self.unsure.place(name) as u32)
    }

    pub fn is_unsure(&self, name: u32) -> bool
        ensures { result ≡ is_among name self.now.unsure }
    {
        self.unsure.has(name)
    }

    /// The C function of a function that is called.
    pub fn function(&self, function: u32) -> u32
        ensures { result ≡ function_place self.now function }
    {
        self.called.place(function) as u32 + 1
    }

    /// The global names that have a variable.
    pub fn globals(&self) -> &Names
        ensures names { result.now ≡ self.now.globals }
        ensures short { HasShortLists self.now }
    {
        &self.globals
    }

    /// The functions that are called, in the order of their C functions.
    pub fn called(&self) -> &Names
        ensures { result.now ≡ self.now.called }
    {
        &self.called
    }

    /// Whether calls are counted, since they may nest too deep.
    pub fn is_counted(&self) -> bool
        ensures { result ≡ self.now.counted }
    {
        self.counted
    }

    /// How many functions there are.
    pub fn count(&self) -> usize
        ensures { result ≡ length self.now.frames }
    {
        self.frames.as_slice().len()
    }

    /// The variables of a function that is there.
    #[tactic(auto, using(crate::proofs::SparedRows::frame_there))]
    pub fn frame_of(&self, function: usize) -> &Frame
        requires { function < length self.now.frames }
        ensures { result.now ≡ frame_of self.now function }
    {
        &self.frames.as_slice()[function]
    }

    /// The variables of a function, by its number.
    pub fn frame(&self, function: usize) -> Option<&Frame>
        ensures { option_copied result ≡ slice_get self.now.frames function }
    {
        self.frames.as_slice().get(function)
    }
}
