//! Where statements end, counted by the statements that they hold.
//! It must not know what is laid out there.

ghost use Rattle.std.specs.Prelude.{◌≡◌, map};
ghost use Rattle.aplc_cprof.specs.Machine.{size, total};
ghost use Rattle.aplc_crun.specs.Building.{place_after, arm_size, entry};

use aplc_cprof::{Arm, CStmt};

/// The place after a statement that stands at a place, or the last one where that is beyond it.
#[cycle(sizes)]
#[tactic(auto, using(aplc_cprof::proofs::Values::sizes))]
pub fn after(at: usize, x: &CStmt) -> usize
    ensures { result ≡ place_after at (size x.now) }
{
    match x {
        CStmt::If(_, a, o) => {
            let start = at.saturating_add(1);
            let middle = after_all(start, a.as_slice());
            match o {
                None => middle,
                Some(o) => after_all(middle, o.as_slice()),
            }
        }
        CStmt::While(_, a) => {
            let start = at.saturating_add(1);
            after_all(start, a.as_slice())
        }
        CStmt::Switch(_, arms, d) => {
            let start = at.saturating_add(1);
            let middle = after_arms(start, arms.as_slice());
            after_all(middle, d.as_slice())
        }
        CStmt::Set(_, _) => at.saturating_add(1),
        CStmt::SetCell(_, _, _) => at.saturating_add(1),
        CStmt::SetBuf(_, _) => at.saturating_add(1),
        CStmt::Cells(_, _) => at.saturating_add(1),
        CStmt::Free(_) => at.saturating_add(1),
        CStmt::Check(_, _, _, _) => at.saturating_add(1),
        CStmt::Width(_, _) => at.saturating_add(1),
        CStmt::PutNum(_, _) => at.saturating_add(1),
        CStmt::PutChar(_) => at.saturating_add(1),
        CStmt::ReadText(_) => at.saturating_add(1),
        CStmt::ReadNums(_) => at.saturating_add(1),
        CStmt::ReadCount(_) => at.saturating_add(1),
        CStmt::At(_, _) => at.saturating_add(1),
        CStmt::Enter => at.saturating_add(1),
        CStmt::Leave => at.saturating_add(1),
        CStmt::Fault(_) => at.saturating_add(1),
        CStmt::Call(_) => at.saturating_add(1),
        CStmt::Return => at.saturating_add(1),
    }
}

/// The place after statements of which the first stands at a place, in the same way.
#[cycle(sizes)]
pub fn after_all(at: usize, xs: &[CStmt]) -> usize
    ensures { result ≡ place_after at (total (map size xs.now)) }
{
    let mut place = at;
    for x in xs {
        place = after(place, x);
    }
    place
}

/// The place after arms of which the first begins at a place, in the same way.
#[cycle(sizes)]
pub fn after_arms(at: usize, arms: &[Arm]) -> usize
    ensures { result ≡ place_after at (total (map arm_size arms.now)) }
{
    let mut place = at;
    for arm in arms {
        place = after_all(place, arm.body.as_slice());
    }
    place
}

/// Where a block begins that would stand at a place: an empty one is what comes after it.
pub fn begin(xs: &[CStmt], at: usize, next: usize) -> usize
    ensures { result ≡ entry xs.now at next }
{
    match xs {
        [] => next,
        _ => at,
    }
}
