//! The order of the work: which lines to look at again, and for which of their local names.
//! No proof rests on it.

ghost use Rattle.std.specs.Prelude.{◌≡◌};

use crate::cell::{Binding, Cell};
use crate::lookup::Lookup;
use crate::tables::Spot;
use aplc_names::{Mention, put_statement};
use std::alloc::{AllocError, Global};

/// A function and a line of it, or 0 for its entry.
#[derive(Clone, Copy, Debug, PartialEq, Eq)]
pub struct Unit {
    pub function: usize,
    pub line: usize,
}

/// What a line waits for.
#[derive(Drop)]
struct Wait {
    /// The line is in the queue.
    queued: bool,
    /// A fact that it reads has risen.
    stale: bool,
    /// Local names whose facts rose at its start.
    risen: Vec<u32>,
    /// The local names that stand in it.
    locals: Vec<u32>,
}

/// What is to be done at a line.
#[derive(Drop)]
pub struct Task {
    pub unit: Unit,
    /// The line is to be evaluated.
    pub stale: bool,
    /// These local names are to go on from it.
    pub risen: Vec<u32>,
}

/// The lines that wait, and who reads what.
#[derive(Drop)]
pub struct Agenda {
    waits: Vec<Vec<Wait>>,
    queue: Vec<Unit>,
    /// The lines that read each global name.
    globals: Vec<Vec<Unit>>,
    /// The lines that call each function.
    calls: Vec<Vec<Unit>>,
}

fn blank(alloc: Global, count: usize) -> Result<Vec<Vec<Unit>>, AllocError> {
    let mut rows = Vec::new(alloc);
    for _ in 0..count {
        rows.push(Vec::new(alloc))?;
    }
    Ok(rows)
}

fn put(rows: &mut Vec<Vec<Unit>>, at: usize, unit: Unit) -> Result<(), AllocError> {
    if at < rows.len() {
        rows[at].push(unit)?;
    }
    Ok(())
}

fn contains(list: &[u32], k: u32) -> bool {
    for x in list {
        if *x == k {
            return true;
        }
    }
    false
}

fn reader_count(rows: &[Vec<Unit>], at: usize) -> usize {
    match rows.get(at) {
        None => 0,
        Some(units) => units.len(),
    }
}

fn reader(rows: &[Vec<Unit>], at: usize, n: usize) -> Option<Unit> {
    match rows.get(at) {
        None => None,
        Some(units) => units.get(n).copied(),
    }
}

impl Agenda {
    /// Every line waits; the first ones come first.
    pub fn full(alloc: Global, lookup: &Lookup) -> Result<Agenda, AllocError> {
        let program = lookup.program();
        let functions = program.functions.as_slice();
        let mut agenda = Agenda {
            waits: Vec::new(alloc),
            queue: Vec::new(alloc),
            globals: blank(alloc, program.names.as_slice().len())?,
            calls: blank(alloc, functions.len())?,
        };
        for i in 0..functions.len() {
            agenda.read_function(alloc, lookup, i)?;
        }
        agenda.queue_all()?;
        Ok(agenda)
    }

    fn read_function(
        &mut self,
        alloc: Global,
        lookup: &Lookup,
        i: usize,
    ) -> Result<(), AllocError> {
        let mut rows = Vec::new(alloc);
        rows.push(Wait {
            queued: true,
            stale: true,
            risen: Vec::new(alloc),
            locals: Vec::new(alloc),
        })?;
        let count = self.line_count(lookup, i);
        for l in 0..count {
            let locals = self.read_line(alloc, lookup, i, l)?;
            rows.push(Wait {
                queued: true,
                stale: true,
                risen: Vec::new(alloc),
                locals,
            })?;
        }
        self.waits.push(rows)?;
        Ok(())
    }

    fn line_count(&self, lookup: &Lookup, i: usize) -> usize {
        match lookup.program().functions.as_slice().get(i) {
            None => 0,
            Some(function) => function.lines.as_slice().len(),
        }
    }

    /// Notes who reads what in a line, and gives the local names in it.
    fn read_line(
        &mut self,
        alloc: Global,
        lookup: &Lookup,
        i: usize,
        l: usize,
    ) -> Result<Vec<u32>, AllocError> {
        let mut mentions = Vec::new(alloc);
        if let Some(function) = lookup.program().functions.as_slice().get(i) {
            if let Some(line) = function.lines.as_slice().get(l) {
                put_statement(&mut mentions, &line.statement)?;
            }
        }
        let unit = Unit {
            function: i,
            line: l.saturating_add(1),
        };
        let mut locals = Vec::new(alloc);
        for mention in &mentions {
            self.read_name(lookup, unit, *mention, &mut locals)?;
        }
        Ok(locals)
    }

    fn read_name(
        &mut self,
        lookup: &Lookup,
        unit: Unit,
        mention: Mention,
        locals: &mut Vec<u32>,
    ) -> Result<(), AllocError> {
        match lookup.binding(unit.function, mention.name) {
            Binding::Local(k) => {
                if k < u32::MAX as usize && !contains(locals.as_slice(), k as u32) {
                    locals.push(k as u32)?;
                }
                Ok(())
            }
            Binding::Global => put(&mut self.globals, mention.name.0 as usize, unit),
            Binding::Function(j) => put(&mut self.calls, j, unit),
            Binding::Label(_) => Ok(()),
        }
    }

    fn queue_all(&mut self) -> Result<(), AllocError> {
        for function in (0..self.waits.len()).rev() {
            for line in (0..self.waits[function].len()).rev() {
                self.queue.push(Unit { function, line })?;
            }
        }
        Ok(())
    }

    /// The local names in a line.
    pub fn locals(&self, unit: Unit) -> &[u32] {
        match self.waits.get(unit.function) {
            None => &[],
            Some(rows) => match rows.get(unit.line) {
                None => &[],
                Some(wait) => wait.locals.as_slice(),
            },
        }
    }

    /// The next line, and what is to be done at it.
    pub fn pop(&mut self, alloc: Global) -> Option<Task> {
        match self.queue.pop() {
            None => None,
            Some(unit) => Some(self.take(alloc, unit)),
        }
    }

    fn take(&mut self, alloc: Global, unit: Unit) -> Task {
        let mut task = Task {
            unit,
            stale: false,
            risen: Vec::new(alloc),
        };
        if unit.function < self.waits.len() && unit.line < self.waits[unit.function].len() {
            let wait = &mut self.waits[unit.function][unit.line];
            wait.queued = false;
            task.stale = wait.stale;
            wait.stale = false;
            task.risen = std::mem::replace(&mut wait.risen, Vec::new(alloc));
        }
        task
    }

    /// A line is to be evaluated.
    fn wake(&mut self, unit: Unit) -> Result<(), AllocError> {
        if unit.function >= self.waits.len() || unit.line >= self.waits[unit.function].len() {
            return Ok(());
        }
        let wait = &mut self.waits[unit.function][unit.line];
        wait.stale = true;
        if !wait.queued {
            wait.queued = true;
            self.queue.push(unit)?;
        }
        Ok(())
    }

    /// A local name has risen at the start of a line.
    fn pass_at(&mut self, unit: Unit, k: u32) -> Result<(), AllocError> {
        if unit.function >= self.waits.len() || unit.line >= self.waits[unit.function].len() {
            return Ok(());
        }
        let wait = &mut self.waits[unit.function][unit.line];
        wait.risen.push(k)?;
        if contains(wait.locals.as_slice(), k) {
            wait.stale = true;
        }
        if !wait.queued {
            wait.queued = true;
            self.queue.push(unit)?;
        }
        Ok(())
    }

    fn wake_global(&mut self, name: usize) -> Result<(), AllocError> {
        for n in 0..reader_count(self.globals.as_slice(), name) {
            if let Some(unit) = reader(self.globals.as_slice(), name, n) {
                self.wake(unit)?;
            }
        }
        Ok(())
    }

    fn wake_callers(&mut self, function: usize) -> Result<(), AllocError> {
        for n in 0..reader_count(self.calls.as_slice(), function) {
            if let Some(unit) = reader(self.calls.as_slice(), function, n) {
                self.wake(unit)?;
            }
        }
        Ok(())
    }

    /// Those who read what rose shall be looked at.
    pub fn spread(&mut self, spot: Spot) -> Result<(), AllocError> {
        match spot {
            Spot::Hub(_, _) => Ok(()),
            Spot::Here(cell) => match cell {
                Cell::Node(_) => Ok(()),
                Cell::Global(n) => self.wake_global(n as usize),
                Cell::Left(function) | Cell::Right(function) => self.wake(Unit {
                    function,
                    line: 0,
                }),
                Cell::Answer(function) => self.wake_callers(function),
                Cell::Start(function, line, k) => {
                    if k < u32::MAX as usize {
                        self.pass_at(Unit { function, line }, k as u32)
                    } else {
                        Ok(())
                    }
                }
            },
        }
    }
}
