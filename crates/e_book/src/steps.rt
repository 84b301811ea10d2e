//! The steps of a proof while its lines come.
ghost use Rattle.std.specs.Prelude.{◌≡◌, ◌++◌, ◌∷◌, [], IfOk, OnOk, length};
ghost use Rattle.e_deriv.specs.Script.{script_of, close_script};
ghost use Rattle.e_deriv.specs.PlainStep.{plain_step, all_before};
ghost use Rattle.e_book.specs.ParserViews.{script_of_close};

use crate::blocks::Closed;
use e_deriv::{Block, Close, Step};
use e_literal::{Items, Lit, Obj};
use std::alloc::{AllocError, Global};
use std::marker::Model;

/// What the close line of a proof says.
#[derive(Drop)]
pub enum CloseLine {
    /// `qed`, with the objects for the made ones.
    Qed(Items<Obj>),
    /// `contradiction`
    Contradiction,
    /// `cases`, with both its blocks.
    Cases {
        lit: Lit,
        first: Closed,
        second: Closed,
    },
}

impl CloseLine {
    /// The close, without certificates.
    #[tactic(auto, using(e_deriv::proofs::Scripts::scripts))]
    fn into_close(self, alloc: Global) -> Close
        ensures { close_script result ≡ script_of_close self }
    {
        match self {
            CloseLine::Qed(objects) => Close::Qed {
                objects,
                certs: Items::empty(alloc),
            },
            CloseLine::Contradiction => Close::Contradiction { against: None },
            CloseLine::Cases { lit, first, second } => Close::Cases {
                lit,
                first: first.into_box(),
                second: second.into_box(),
            },
        }
    }
}

/// The steps of a block read so far, seen as their list.
#[derive(Drop)]
pub struct Steps {
    steps: Vec<Step>,
}

impl Model for Steps {
    ghost use Rattle.std.specs.Prelude.{List};
    ghost use Rattle.std.specs.Prelude.{map};
    ghost use Rattle.e_deriv.specs.PlainStep.{PlainStep, plain_step};
    ghost use Rattle.e_book.specs.Codes.{steps_code};

    ghost Value = { List PlainStep };

    ghost coded = { steps_code };

    ghost view = { λ s. map plain_step s.steps.items };
}

impl Steps {
    /// No steps.
    pub fn new(alloc: Global) -> Self
        ensures { result ≡ [] }
    {
        Steps {
            steps: Vec::new(alloc),
        }
    }

    /// How many there are.
    pub fn len(&self) -> usize
        ensures { result ≡ length self.now }
    {
        self.steps.len()
    }

    /// Puts a step last.
    pub(crate) fn push(&mut self, step: Step) -> Result<(), AllocError>
        ensures { OnOk result (self.new ≡ self.old ++ plain_step step ∷ []) }
    {
        self.steps.push(step)?;
        Ok(())
    }

    /// The block with these steps, closed by this line.
    #[tactic(auto, using(crate::proofs::canonical::PlainSteps::all_plain))]
    pub fn into_block(self, alloc: Global, close: CloseLine) -> Block
        ensures { script_of result ≡ all_before self (script_of_close close) }
    {
        let Steps { steps } = self;
        let close = close.into_close(alloc);
        Block { steps, close }
    }
}
