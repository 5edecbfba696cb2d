//! What stands while a line is evaluated over facts: the facts of local names, and what was asked and refused so far.
//! It must not know what is evaluated.

ghost use Rattle.std.specs.Prelude.{◌≡◌, OnOk};
ghost use Rattle.aplc_infer.specs.Seeing.{at, fresh, asked, asked_for, denied, with_name};

use crate::cell::{Cell, Demand};
use crate::fact::Inferred;
use crate::row::Row;
use crate::rule_break::RuleBreak;
use aplc_lex::Refusal;
use std::alloc::{AllocError, Global};
use std::marker::Model;

/// The facts of the local names of a function by their numbers, demands and refusals.
#[derive(Drop)]
pub struct Walk {
    names: Row,
    demands: Vec<Demand>,
    refused: Vec<Refusal>,
}

impl Model for Walk {
    ghost use Rattle.aplc_infer.specs.Seeing.{Progress};

    ghost Value = { Progress };

    ghost view = { λ w. record { names = w.names; demands = w.demands.items; refused = w.refused.items } };
}

impl Walk {
    /// At the start of a line, where the local names have these facts.
    pub fn new(alloc: Global, names: Row) -> Walk
        ensures { result ≡ fresh names }
    {
        Walk {
            names,
            demands: Vec::new(alloc),
            refused: Vec::new(alloc),
        }
    }

    pub fn names(&self) -> &Row
        ensures { result.now ≡ self.now.names }
    {
        &self.names
    }

    pub fn demands(&self) -> &[Demand]
        ensures { result.now ≡ self.now.demands }
    {
        self.demands.as_slice()
    }

    pub fn refused(&self) -> &[Refusal]
        ensures { result.now ≡ self.now.refused }
    {
        self.refused.as_slice()
    }

    /// The fact of a local name.
    pub fn local(&self, number: usize) -> Inferred
        ensures { result ≡ at self.now.names number }
    {
        self.names.at(number)
    }

    /// The local name is given a fact.
    pub fn set(&mut self, number: usize, fact: Inferred) -> Result<(), AllocError>
        ensures { OnOk result (self.new ≡ with_name number fact self.old) }
    {
        self.names.set(number, fact)?;
        Ok(())
    }

    /// The fact at the cell is to be above this one.
    pub fn ask(&mut self, cell: Cell, fact: &Inferred) -> Result<(), AllocError>
        ensures { OnOk result (self.new ≡ asked cell fact.now self.old) }
    {
        self.demands.push(Demand {
            cell,
            fact: fact.copy(),
        })?;
        Ok(())
    }

    /// The same of an argument that may be left out.
    pub fn ask_for(&mut self, cell: Cell, fact: &Option<Inferred>) -> Result<(), AllocError>
        ensures { OnOk result (self.new ≡ asked_for cell fact.now self.old) }
    {
        match fact {
            None => Ok(()),
            Some(x) => self.ask(cell, x),
        }
    }

    pub fn deny(&mut self, place: u64, why: RuleBreak) -> Result<(), AllocError>
        ensures { OnOk result (self.new ≡ denied place why self.old) }
    {
        self.refused.push(Refusal {
            number: why.number(),
            place,
        })?;
        Ok(())
    }
}
