//! The lines of a text, and its functions, from its words.
//! It must not know what a line says.

ghost use Rattle.std.specs.Prelude.{◌≡◌, List as ListOf, ◌∷◌, [], false, None, OnOk, IfOk, MatchOption};
ghost use Rattle.aplc_syntax.specs.Held.{row_of, del_row_of, block_of, parts_behind, laid_out, cut_out, sorted, sorted_of};
ghost use Rattle.aplc_syntax.specs.Layout.{Row as RowOf, row, Part, outside, function, begins_with_del, lines, parts};
ghost use Rattle.aplc_syntax.specs.declared.word.Word.{Word as WordOf};

use crate::word::{Word, WordKind};
use aplc_lex::List;
use std::alloc::{AllocError, Global};

/// A line: its first byte, and its words without the line's end.
#[derive(Drop)]
pub struct Row {
    pub start: u32,
    pub words: List<Word>,
}

/// A line whose first word is a del: its first byte, the place of the del, and the words behind it.
#[derive(Drop)]
pub struct DelRow {
    pub start: u32,
    pub del: u32,
    pub rest: List<Word>,
}

/// A function: the line of its header, its lines, and the line that closes it.
#[derive(Drop)]
pub struct Block {
    pub head: DelRow,
    pub body: List<Row>,
    pub closing: Option<DelRow>,
}

/// The functions of a text, and the lines outside them, before the first function and behind it.
#[derive(Drop)]
pub struct Parts {
    pub above: Vec<Row>,
    pub blocks: Vec<Block>,
    pub below: Vec<Row>,
}

/// A function that isn't closed yet.
#[derive(Drop)]
pub struct Opened {
    head: DelRow,
    body: Vec<Row>,
}

/// The parts so far, and the function that is open.
#[derive(Drop)]
pub struct Layout {
    parts: Parts,
    opened: Option<Opened>,
}

/// The line as one that begins with a del, if it does.
fn del_row(alloc: Global, row: &Row) -> Result<Option<DelRow>, AllocError>
    ensures { IfOk result (λ o. MatchOption o (begins_with_del row.now.words ≡ false) (λ d. row_of row.now ≡ del_row_of d)) }
{
    match row.words.as_slice() {
        [] => Ok(None),
        [first, rest @ ..] => match first.kind {
            WordKind::Del => {
                let rest = Vec::from_slice(alloc, rest)?;
                Ok(Some(DelRow {
                    start: row.start,
                    del: first.place,
                    rest: List::from_vec(rest),
                }))
            }
            _ => Ok(None),
        },
    }
}

impl Parts {
    /// One more line outside functions.
    #[tactic(auto, using(crate::proofs::Sorts::sorts))]
    fn outside(&mut self, row: Row) -> Result<(), AllocError>
        ensures { OnOk result ((ps : ListOf Part) → parts_behind self.new ps ≡ parts_behind self.old (outside (row_of row) ∷ ps)) }
    {
        if self.blocks.is_empty() {
            self.above.push(row)?;
        } else {
            self.below.push(row)?;
        }
        Ok(())
    }

    /// One more function.
    #[tactic(auto, using(crate::proofs::Sorts::sorts))]
    fn function(&mut self, block: Block) -> Result<(), AllocError>
        ensures { OnOk result ((ps : ListOf Part) → parts_behind self.new ps ≡ parts_behind self.old (function (block_of block) ∷ ps)) }
    {
        self.blocks.push(block)?;
        Ok(())
    }
}

impl Layout {
    /// One more line.
    fn line(&mut self, alloc: Global, row: Row) -> Result<(), AllocError>
        ensures { OnOk result ((rs : ListOf RowOf) → laid_out self.new rs ≡ laid_out self.old (row_of row ∷ rs)) }
    {
        let del = del_row(alloc, &row)?;
        match self.opened.take() {
            None => match del {
                None => self.parts.outside(row),
                Some(head) => {
                    self.opened = Some(Opened {
                        head,
                        body: Vec::new(alloc),
                    });
                    Ok(())
                }
            },
            Some(Opened { head, mut body }) => match del {
                None => {
                    body.push(row)?;
                    self.opened = Some(Opened { head, body });
                    Ok(())
                }
                Some(closing) => self.parts.function(Block {
                    head,
                    body: List::from_vec(body),
                    closing: Some(closing),
                }),
            },
        }
    }

    /// The parts, where no line is left.
    fn finish(self) -> Result<Parts, AllocError>
        ensures { IfOk result (λ p. sorted_of p ≡ laid_out self []) }
    {
        let Layout { mut parts, opened } = self;
        match opened {
            None => Ok(parts),
            Some(Opened { head, body }) => {
                parts.function(Block {
                    head,
                    body: List::from_vec(body),
                    closing: None,
                })?;
                Ok(parts)
            }
        }
    }
}

/// The lines so far, and the line that is open: its first byte, and its words.
#[derive(Drop)]
pub struct Cutter {
    layout: Layout,
    start: u32,
    line: Vec<Word>,
}

impl Cutter {
    /// Ends the line that is open; the next one begins at `to`.
    fn end(&mut self, alloc: Global, to: u32) -> Result<(), AllocError>
        ensures { OnOk result ((rs : ListOf RowOf) → (laid_out self.new.layout rs ≡ laid_out self.old.layout (row self.old.start self.old.line.items ∷ rs)) × (self.new.start ≡ to) × (self.new.line.items ≡ [])) }
    {
        let start = self.start;
        self.start = to;
        let line = std::mem::replace(&mut self.line, Vec::new(alloc));
        let words = List::from_vec(line);
        self.layout.line(alloc, Row { start, words })
    }

    /// One more word.
    fn word(&mut self, alloc: Global, word: Word) -> Result<(), AllocError>
        ensures { OnOk result ((ws : ListOf WordOf) → cut_out self.new ws ≡ cut_out self.old (word ∷ ws)) }
    {
        match word.kind {
            WordKind::LineEnd(to) => self.end(alloc, to),
            _ => {
                self.line.push(word)?;
                Ok(())
            }
        }
    }
}

/// The parts of a text by its words.
pub fn parts_of(alloc: Global, words: &[Word]) -> Result<Parts, AllocError>
    ensures { IfOk result (λ p. sorted_of p ≡ sorted (parts (lines words.now) None)) }
{
    let mut cutter = Cutter {
        layout: Layout {
            parts: Parts {
                above: Vec::new(alloc),
                blocks: Vec::new(alloc),
                below: Vec::new(alloc),
            },
            opened: None,
        },
        start: 0,
        line: Vec::new(alloc),
    };
    for word in words {
        cutter.word(alloc, *word)?;
    }
    cutter.end(alloc, 0)?;
    let Cutter { layout, .. } = cutter;
    layout.finish()
}
