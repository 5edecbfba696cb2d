//! The variables of a program, with a flag only for names that may be unset when they are read.
//! It must not know the code.

ghost use Rattle.std.specs.Prelude.{◌≡◌, ◌<◌, List, ℕ, false, if◌then◌else◌, IfOk, OnOk, length};
ghost use Rattle.aplc_gen.specs.Layouts.{frame_of};
ghost use Rattle.aplc_gen.specs.Emitted.{site_at};
ghost use Rattle.aplc_gen.specs.Made.{layout_of};
ghost use Rattle.aplc_gen.specs.Writing.{lowered_core};
ghost use Rattle.aplc_gen.specs.Sparing.{sure_of, site_flags, frame_spared, frames_spared, flags_spared, all_fall, spared_with, spared};

use crate::flags::Flags;
use crate::flow::Flow;
use crate::frame::{Frame, Layout};
use crate::known::Known;
use crate::names::Names;
use crate::ranks::{all_fall, ranks};
use aplc_core::CoreProgram;
use std::alloc::{AllocError, Global};

/// The variables of a function, with these flags.
#[tactic(auto, using(crate::proofs::SparedRows::short_frame))]
fn spared_frame(
    alloc: Global,
    frame: &Frame,
    flags: &Known,
    sure: Names,
) -> Result<Frame, AllocError>
    requires { frame.now.unsure ≡ frame.now.names }
    ensures { IfOk result (λ x. x ≡ frame_spared flags.now sure frame.now) }
{
    let unsure = flags.among(alloc, frame.names())?;
    let names = frame.names().copy(alloc)?;
    Ok(Frame::new(names, unsure, frame.slots(), sure))
}

/// Those of the function of this number.
fn frame_at(
    alloc: Global,
    core: &CoreProgram,
    base: &Layout,
    number: usize,
    flags: &mut Flags,
) -> Result<Frame, AllocError>
    requires inside { number < length base.now.frames }
    requires function { number < length core.now.program.functions }
    requires full { (frame_of base.now number).unsure ≡ (frame_of base.now number).names }
    ensures flags { OnOk result (flags.new ≡ site_flags (site_at base.now (lowered_core core.now) false number) flags.old) }
    ensures frame { IfOk result (λ x. x ≡ frame_spared (site_flags (site_at base.now (lowered_core core.now) false number) flags.old).locals (sure_of (site_at base.now (lowered_core core.now) false number)) (frame_of base.now number)) }
{
    let frame = base.frame_of(number);
    let flow = Flow::new(alloc, core, base, frame, number, false)?;
    let sure = flags.add_function(alloc, &flow)?;
    spared_frame(alloc, frame, flags.locals(), sure)
}

/// Those of each function.
#[tactic(auto, using(crate::proofs::SparedRows::frames_left))]
fn all_frames(
    alloc: Global,
    core: &CoreProgram,
    base: &Layout,
    flags: &mut Flags,
) -> Result<Vec<Frame>, AllocError>
    requires { base.now ≡ layout_of (lowered_core core.now) }
    ensures frames { IfOk result (λ v. v.items ≡ frames_spared base.now (lowered_core core.now) 0 base.now.frames flags.old) }
    ensures flags { OnOk result (flags.new ≡ flags_spared base.now (lowered_core core.now) 0 base.now.frames flags.old) }
{
    let mut frames = Vec::new(alloc);
    for number in 0..base.count() {
        let frame = frame_at(alloc, core, base, number, flags)?;
        frames.push(frame)?;
    }
    Ok(frames)
}

fn is_counted(core: &CoreProgram, base: &Layout, ranks: &[u32]) -> bool
    requires { length base.now.frames ≡ length core.now.program.functions }
    ensures { result ≡ (if all_fall ranks.now 0 (lowered_core core.now).routines then false else base.now.counted) }
{
    if all_fall(core, base, ranks) {
        return false;
    }
    base.is_counted()
}

/// The variables of a program whose functions have these ranks, from those with all flags. Calls are not counted where
/// each leads to a lower rank.
#[tactic(auto, using(crate::proofs::SparedRows::short_layout))]
fn spared_with(
    alloc: Global,
    core: &CoreProgram,
    base: &Layout,
    ranks: &[u32],
) -> Result<Layout, AllocError>
    requires { base.now ≡ layout_of (lowered_core core.now) }
    ensures { IfOk result (λ y. y ≡ spared_with base.now (lowered_core core.now) ranks.now) }
{
    let mut flags = Flags::new(alloc);
    let frames = all_frames(alloc, core, base, &mut flags)?;
    let unsure = flags.globals().among(alloc, base.globals())?;
    let globals = base.globals().copy(alloc)?;
    let called = base.called().copy(alloc)?;
    let counted = is_counted(core, base, ranks);
    Ok(Layout::new(globals, unsure, called, counted, frames))
}

/// The variables of a program, from those with all flags.
pub fn spared(alloc: Global, core: &CoreProgram, base: &Layout) -> Result<Layout, AllocError>
    requires { base.now ≡ layout_of (lowered_core core.now) }
    ensures { IfOk result (λ y. (ranks : List ℕ) × (y ≡ spared (lowered_core core.now) ranks)) }
{
    let ranks = ranks(alloc, core)?;
    spared_with(alloc, core, base, ranks.as_slice())
}
