//! Blocks, steps and closes.
ghost use Rattle.std.specs.Prelude.{◌≡◌, IfOk};

use e_clause::{Against, By, Cert};
use e_construct::{Construction, Superpose};
use e_literal::{Items, Lit, Obj};
use e_text::Name;
use std::alloc::{AllocError, Global};
use std::mem;

/// Steps, and the close that ends them.
///
/// A script has no certificates; a derivation has one for each literal that a step needs.
#[cycle(block)]
#[derive(Drop)]
pub struct Block {
    pub steps: Vec<Step>,
    pub close: Close,
}

/// A step, after which what it gives are facts.
#[cycle(block)]
#[derive(Drop)]
pub enum Step {
    /// The literal is one of an instance of the rule, and the negation of each other one is a fact.
    Cite(By),
    /// The literal is allowed.
    Hence {
        lit: Lit,
        cert: Option<Cert>,
    },
    /// Each literal that the construction needs is allowed; the new objects, with these names, come
    /// into scope, and what it gives are facts.
    Make {
        construction: Construction,
        names: Items<Name>,
        certs: Items<Cert>,
    },
    /// Each given literal of an earlier theorem is allowed at the arguments, where blanks are
    /// filled by the least good choice; its made objects, with these names, come into scope, and
    /// what it shows are facts.
    Apply {
        /// The theorem's place among those before.
        theorem: u32,
        args: Items<Option<Obj>>,
        names: Items<Name>,
        certs: Items<Cert>,
    },
    /// The inner block proves the literals. Its objects and facts end with it, and the literals are
    /// facts.
    Claim {
        shown: Items<Lit>,
        inner: Box<Block>,
    },
    /// Each literal that the superposition needs is allowed. The inner block begins with the two
    /// copied points, with these names, and with what the superposition gives; it proves the
    /// literals, which do not speak of the copied points. Its objects and facts end with it, and
    /// the literals are facts.
    Superposed {
        superposition: Superpose,
        names: Items<Name>,
        shown: Items<Lit>,
        certs: Items<Cert>,
        inner: Box<Block>,
    },
}

/// What a block has to show: literals, and the made objects in them.
#[derive(Clone, Copy)]
pub struct Goal<'a> {
    pub made: &'a [Obj],
    pub shown: &'a [Lit],
}

/// The end of a block.
#[cycle(block)]
#[derive(Drop)]
pub enum Close {
    /// Each literal of the goal is allowed, with these objects for its made ones.
    Qed {
        objects: Items<Obj>,
        certs: Items<Cert>,
    },
    /// The facts contradict each other.
    Contradiction {
        against: Option<Against>,
    },
    /// Two blocks with the goal of this one: the first has the literal for a fact, the second its
    /// negation.
    Cases {
        lit: Lit,
        first: Box<Block>,
        second: Box<Block>,
    },
}

/// Two blocks, boxed. It fails only out of memory.
pub fn box_blocks(
    alloc: Global,
    first: Block,
    second: Block,
) -> Result<(Box<Block>, Box<Block>), AllocError>
    ensures first { IfOk result (λ p. p.0.value ≡ first) }
    ensures second { IfOk result (λ p. p.1.value ≡ second) }
{
    let first = match Box::new(alloc, first) {
        Ok(first) => first,
        Err(failed) => {
            mem::drop(failed);
            mem::drop(second);
            return Err(AllocError);
        }
    };
    match Box::new(alloc, second) {
        Ok(second) => Ok((first, second)),
        Err(failed) => {
            mem::drop(failed);
            mem::drop(first);
            Err(AllocError)
        }
    }
}
