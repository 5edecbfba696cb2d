//! The facts that are kept while they rise.
//! It must not know what makes them rise.

ghost use Rattle.std.specs.Prelude.{◌≡◌, ◌≤◌, ◌++◌, ◌∷◌, [], ℕ, length, Option, Some, None, OnOk, IfOk, Bool, true, false};
ghost use Rattle.aplc_infer.specs.declared.fact.Inferred.TheVariants.{Unset};
ghost use Rattle.aplc_infer.specs.declared.cell.Cell.TheVariants as cell;
ghost use Rattle.aplc_infer.specs.Rising.{at2, at3, RowRises, BlocksRise};

use crate::block::Block;
use crate::cell::Cell;
use crate::column::Column;
use crate::fact::Inferred;
use aplc_syntax::NameId;
use std::alloc::{AllocError, Global};
use std::marker::Model;

/// Where a fact stands: at a cell, or for a local name of a function at the branches of the function that may lead to
/// every line.
#[derive(Clone, Copy, Debug, PartialEq, Eq)]
pub enum Spot {
    Here(Cell),
    Hub(usize, usize),
}

/// Blocks by their numbers.
#[derive(Drop)]
pub struct Blocks {
    blocks: Vec<Block>,
}

impl Model for Blocks {
    ghost use Rattle.std.specs.Prelude.{List};
    ghost use Rattle.aplc_infer.specs.declared.fact.Inferred.{Inferred};

    ghost Value = { List (List (List Inferred)) };

    ghost view = { λ r. r.blocks.items };
}

impl Blocks {
    pub fn new(alloc: Global) -> Blocks
        ensures { result ≡ [] }
    {
        Blocks {
            blocks: Vec::new(alloc),
        }
    }

    pub fn push(&mut self, block: Block) -> Result<(), AllocError>
        ensures { OnOk result (self.new ≡ self.old ++ block ∷ []) }
    {
        self.blocks.push(block)?;
        Ok(())
    }

    pub fn at(&self, i: usize, l: usize, k: usize) -> Inferred
        ensures { result ≡ at3 self.now (i, (l, k)) }
    {
        match self.blocks.get(i) {
            None => Inferred::Unset,
            Some(block) => block.at(l, k),
        }
    }

    /// Beyond this number nothing is set in row `l`.
    #[tactic(auto, using(crate::proofs::Raised::widths))]
    pub fn width(&self, i: usize, l: usize) -> usize
        ensures { (k : ℕ) → result ≤ k → at3 self.now (i, (l, k)) ≡ Unset }
    {
        match self.blocks.get(i) {
            None => 0,
            Some(block) => block.width(l),
        }
    }

    pub fn raise(
        &mut self,
        i: usize,
        l: usize,
        k: usize,
        fact: &Inferred,
    ) -> Result<bool, AllocError>
        ensures { IfOk result (BlocksRise self.old self.new (i, (l, k)) fact.now) }
    {
        if i >= self.blocks.len() {
            return Err(AllocError);
        }
        let rose = self.blocks[i].raise(l, k, fact)?;
        Ok(rose)
    }

    /// Two rows have one fact for a local name.
    pub fn is_passed(&self, i: usize, l: usize, m: usize, k: usize) -> bool {
        match self.blocks.get(i) {
            None => true,
            Some(block) => block.is_passed(l, m, k),
        }
    }

    /// Raises the fact of row `m` so that it is above that of row `l`, and says whether it rose.
    pub fn pass(&mut self, i: usize, l: usize, m: usize, k: usize) -> Result<bool, AllocError>
        ensures { IfOk result (BlocksRise self.old self.new (i, (m, k)) (at3 self.old (i, (l, k)))) }
    {
        if i >= self.blocks.len() {
            return Err(AllocError);
        }
        let rose = self.blocks[i].pass(l, m, k)?;
        Ok(rose)
    }
}

/// What is found so far.
#[derive(Drop)]
pub struct Tables {
    pub nodes: Column,
    pub globals: Column,
    pub lefts: Column,
    pub rights: Column,
    pub answers: Column,
    /// For each function a row for each line, and row 0 for its hub.
    pub rows: Blocks,
    /// The spots that rose and that nobody has looked at since. They decide the order of the work and nothing else.
    pub risen: Vec<Spot>,
}

/// How large tables are.
#[derive(Clone, Copy, Debug, PartialEq, Eq)]
pub struct Extent {
    pub nodes: usize,
    pub globals: usize,
    pub functions: usize,
}

ghost use Rattle.aplc_infer.specs.declared.tables.Spot.{Spot};
ghost use Rattle.aplc_infer.specs.declared.tables.Spot.TheVariants.{Here, Hub};
ghost use Rattle.aplc_infer.specs.Tables.{look, family_of, spot_in, Forgets, TablesRise};

impl Tables {
    /// Nothing is set.
    #[tactic(auto, using(crate::proofs::Raised::nothing_set))]
    pub fn blank(alloc: Global, extent: Extent, rows: Blocks) -> Result<Tables, AllocError>
        requires { (i : ℕ × (ℕ × ℕ)) → at3 rows i ≡ Unset }
        ensures { IfOk result (λ t. (s : Spot) → look t s ≡ Unset) }
    {
        let nodes = Column::blank(alloc, extent.nodes)?;
        let globals = Column::blank(alloc, extent.globals)?;
        let lefts = Column::blank(alloc, extent.functions)?;
        let rights = Column::blank(alloc, extent.functions)?;
        let answers = Column::blank(alloc, extent.functions)?;
        Ok(Tables {
            nodes,
            globals,
            lefts,
            rights,
            answers,
            rows,
            risen: Vec::new(alloc),
        })
    }

    /// The facts of the nodes; nothing else is kept.
    pub fn into_nodes(self) -> Column
        ensures { result ≡ self.nodes }
    {
        self.nodes
    }

    /// The fact of a global name.
    pub fn global(&self, name: NameId) -> Inferred
        ensures { result ≡ family_of self.now (cell.Global name.0) }
    {
        self.globals.at(name.0 as usize)
    }

    /// The fact of a function's result.
    pub fn answer(&self, function: usize) -> Inferred
        ensures { result ≡ family_of self.now (cell.Answer function) }
    {
        self.answers.at(function)
    }

    /// Beyond this number a function's hub has nothing.
    pub fn width(&self, i: usize) -> usize
        ensures { (k : ℕ) → result ≤ k → look self.now (Hub i k) ≡ Unset }
    {
        self.rows.width(i, 0)
    }

    pub fn at(&self, spot: Spot) -> Inferred
        ensures { result ≡ look self.now spot }
    {
        match spot {
            Spot::Here(cell) => self.at_cell(cell),
            Spot::Hub(i, k) => self.rows.at(i, 0, k),
        }
    }

    /// What row `l` of a function has for a local name.
    #[tactic(auto, using(crate::proofs::Raised::look_row))]
    pub fn in_row(&self, i: usize, l: usize, k: usize) -> Inferred
        ensures { result ≡ look self.now (spot_in i l k) }
    {
        self.rows.at(i, l, k)
    }

    pub fn at_cell(&self, cell: Cell) -> Inferred
        ensures { result ≡ family_of self.now cell }
    {
        match cell {
            Cell::Node(n) => self.nodes.at(n as usize),
            Cell::Global(n) => self.globals.at(n as usize),
            Cell::Left(i) => self.lefts.at(i),
            Cell::Right(i) => self.rights.at(i),
            Cell::Answer(i) => self.answers.at(i),
            Cell::Start(i, l, k) => self.start(i, l, k),
        }
    }

    #[tactic(auto, using(crate::proofs::Raised::starts))]
    fn start(&self, i: usize, l: usize, k: usize) -> Inferred
        ensures { result ≡ look self.now (Here (cell.Start i l k)) }
    {
        if l == 0 {
            return Inferred::Unset;
        }
        self.rows.at(i, l, k)
    }

    /// Raises a fact so that it is above this one, and says whether it rose. A spot without a table is want of memory.
    #[tactic(auto, using(crate::proofs::Raised::remembered))]
    pub fn raise(&mut self, spot: Spot, fact: &Inferred) -> Result<bool, AllocError>
        ensures { IfOk result (TablesRise self.old self.new spot fact.now) }
    {
        let rose = self.raise_at(spot, fact)?;
        if rose {
            self.risen.push(spot)?;
            return Ok(true);
        }
        Ok(false)
    }

    /// Raises what row `m` of a function has for a local name so that it is above what row `l` has.
    #[tactic(auto, using(crate::proofs::Raised::remembered))]
    pub fn pass(&mut self, i: usize, l: usize, m: usize, k: usize) -> Result<bool, AllocError>
        ensures { IfOk result (TablesRise self.old self.new (spot_in i m k) (look self.old (spot_in i l k))) }
    {
        let rose = self.pass_at(i, l, m, k)?;
        if rose {
            self.risen.push(row_spot(i, m, k))?;
            return Ok(true);
        }
        Ok(false)
    }

    #[tactic(auto, using(crate::proofs::Raised::in_rows_passed))]
    fn pass_at(&mut self, i: usize, l: usize, m: usize, k: usize) -> Result<bool, AllocError>
        ensures { IfOk result (TablesRise self.old self.new (spot_in i m k) (look self.old (spot_in i l k))) }
    {
        let rose = self.rows.pass(i, l, m, k)?;
        Ok(rose)
    }

    /// Two rows of a function have one fact for a local name. It decides the order of the work and nothing else.
    pub fn is_passed(&self, i: usize, l: usize, m: usize, k: usize) -> bool {
        self.rows.is_passed(i, l, m, k)
    }

    /// A spot that rose.
    #[tactic(auto, using(crate::proofs::Raised::forgotten))]
    pub fn next_risen(&mut self) -> Option<Spot>
        ensures { Forgets self.old self.new }
    {
        self.risen.pop()
    }

    #[tactic(auto, using(crate::proofs::Raised::fields))]
    fn raise_at(&mut self, spot: Spot, fact: &Inferred) -> Result<bool, AllocError>
        ensures { IfOk result (TablesRise self.old self.new spot fact.now) }
    {
        match spot {
            Spot::Hub(i, k) => {
                let rose = self.rows.raise(i, 0, k, fact)?;
                Ok(rose)
            }
            Spot::Here(cell) => match cell {
                Cell::Node(n) => {
                    let rose = self.nodes.raise(n as usize, fact)?;
                    Ok(rose)
                }
                Cell::Global(n) => {
                    let rose = self.globals.raise(n as usize, fact)?;
                    Ok(rose)
                }
                Cell::Left(i) => {
                    let rose = self.lefts.raise(i, fact)?;
                    Ok(rose)
                }
                Cell::Right(i) => {
                    let rose = self.rights.raise(i, fact)?;
                    Ok(rose)
                }
                Cell::Answer(i) => {
                    let rose = self.answers.raise(i, fact)?;
                    Ok(rose)
                }
                Cell::Start(i, l, k) => {
                    if l == 0 {
                        return Err(AllocError);
                    }
                    let rose = self.rows.raise(i, l, k, fact)?;
                    Ok(rose)
                }
            },
        }
    }
}

/// The spot of row `l` of a function.
fn row_spot(i: usize, l: usize, k: usize) -> Spot
    ensures { result ≡ spot_in i l k }
{
    if l == 0 {
        Spot::Hub(i, k)
    } else {
        Spot::Here(Cell::Start(i, l, k))
    }
}
