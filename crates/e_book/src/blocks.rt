//! The blocks of a proof that are open while its lines come.
ghost use Rattle.std.specs.Prelude.{◌≡◌, ◌∷◌, [], OnOk, IfOk, length, reverse, Some, None, Option};
ghost use Rattle.e_deriv.specs.Script.{script_of};
ghost use Rattle.e_book.specs.Blocks.{TopIs};

use crate::steps::Steps;
use e_construct::Superpose;
use e_deriv::{Block, Names};
use e_literal::{Items, Lit};
use e_text::Name;
use std::alloc::{AllocError, Global};
use std::marker::Model;

/// A block that is closed, seen as its script.
#[derive(Drop)]
pub struct Closed {
    block: Box<Block>,
}

impl Model for Closed {
    ghost use Rattle.e_deriv.specs.Script.{Script, script_of};
    ghost use Rattle.e_book.specs.Codes.{script_code};

    ghost Value = { Script };

    ghost coded = { script_code };

    ghost view = { λ c. script_of c.block.value };
}

impl Closed {
    /// The block, closed. It fails only out of memory.
    pub fn new(alloc: Global, block: Block) -> Result<Closed, AllocError>
        ensures { IfOk result (λ c. c ≡ script_of block) }
    {
        let block = Box::new(alloc, block)?;
        Ok(Closed { block })
    }

    /// The block in its box.
    pub fn into_box(self) -> Box<Block>
        ensures { script_of result.value ≡ self }
    {
        let Closed { block } = self;
        block
    }
}

/// What began a block inside another.
#[derive(Drop)]
pub enum BlockKind {
    /// `claim`, with the literals that the block shows.
    Claim {
        shown: Items<Lit>,
    },
    /// `superpose`, with the names of the copied points and the literals that the block shows.
    Superpose {
        superposition: Superpose,
        names: Items<Name>,
        shown: Items<Lit>,
    },
    /// `cases`: the block with the literal.
    First {
        lit: Lit,
    },
    /// `else`: the block with the negation of the literal. The first is closed.
    Second {
        lit: Lit,
        first: Closed,
    },
}

/// A block that another one inside it interrupts.
#[derive(Drop)]
pub struct OpenBlock {
    /// Its steps so far.
    pub steps: Steps,
    /// The names of the objects in scope there.
    pub in_scope: Names,
    /// How many literals are facts there, repeats counted.
    pub facts: usize,
    /// How many monomials they have.
    pub terms: usize,
    /// What began the inner block, not this one.
    pub kind: BlockKind,
}

/// The blocks that are interrupted, seen as a list with the innermost first.
#[derive(Drop)]
pub struct BlockStack {
    blocks: Vec<OpenBlock>,
}

impl Model for BlockStack {
    ghost use Rattle.std.specs.Prelude.{List, reverse};
    ghost use Rattle.std.specs.Coded.{coded_list};
    ghost use Rattle.e_book.specs.declared.blocks.OpenBlock.{OpenBlock};
    ghost use Rattle.e_book.specs.contracts.blocks.OpenBlock as open_block;

    ghost Value = { List OpenBlock };

    ghost coded = { coded_list open_block.the_row.coded };

    ghost view = { λ o. reverse o.blocks.items };
}

impl BlockStack {
    /// No block is interrupted.
    pub fn new(alloc: Global) -> BlockStack
        ensures { result ≡ [] }
    {
        BlockStack {
            blocks: Vec::new(alloc),
        }
    }

    /// How many there are.
    pub fn len(&self) -> usize
        ensures { result ≡ length self.now }
    {
        self.blocks.len()
    }

    /// The interrupted blocks, the outermost first.
    pub fn items(&self) -> &[OpenBlock]
        ensures { reverse result.now ≡ self.now }
    {
        &self.blocks
    }

    /// One more block is interrupted, and is the innermost now. It fails only out of memory.
    pub(crate) fn push(&mut self, outer: OpenBlock) -> Result<(), AllocError>
        ensures { OnOk result (self.new ≡ outer ∷ self.old) }
    {
        self.blocks.push(outer)?;
        Ok(())
    }

    /// Takes the innermost out.
    pub fn pop(&mut self) -> Option<OpenBlock>
        ensures { TopIs self.old result self.new }
    {
        self.blocks.pop()
    }

    /// Whether one of them was interrupted by a claim or a superposition, whose block makes
    /// nothing.
    #[tactic(auto, using(crate::proofs::grammar::Interrupted::any_reversed))]
    pub fn has_claim(&self) -> bool
        ensures { result ≡ Rattle.e_book.specs.Blocks.has_claim self.now }
    {
        any_claim(&self.blocks)
    }
}

/// Whether one of these blocks was interrupted by a claim or a superposition.
fn any_claim(blocks: &[OpenBlock]) -> bool
    ensures { result ≡ Rattle.e_book.specs.Blocks.has_claim blocks.now }
{
    blocks.iter().any(|outer| is_claim(&outer.kind))
}

/// Whether the block has a goal of its own, as that of a claim or of a superposition.
fn is_claim(kind: &BlockKind) -> bool
    ensures { result ≡ Rattle.e_book.specs.Blocks.is_claim kind.now }
{
    match kind {
        BlockKind::Claim { .. } | BlockKind::Superpose { .. } => true,
        BlockKind::First { .. } | BlockKind::Second { .. } => false,
    }
}
