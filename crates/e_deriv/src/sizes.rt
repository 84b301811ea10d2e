//! How long a block is, and how deep.
ghost use Rattle.std.specs.Prelude.{◌≡◌, ◌<◌, ◌^◌};
ghost use Rattle.e_deriv.specs.Script.{script_of};

use crate::block::{Block, Close, Step};

/// How many steps it has, closes too, and those of the blocks inside it.
#[tactic(auto, using(crate::proofs::Scripts::sizes))]
pub fn size(block: &Block) -> u32
    requires { Rattle.e_deriv.specs.Script.size (script_of block.now) < 2 ^ 32 }
    ensures { result ≡ Rattle.e_deriv.specs.Script.size (script_of block.now) }
{
    let mut lines = 0u32;
    for step in &block.steps {
        match step {
            Step::Cite(_) | Step::Hence { .. } | Step::Make { .. } | Step::Apply { .. } => lines +=
                1,
            Step::Claim { inner, .. } => lines += size(inner) + 1,
            Step::Superposed { inner, .. } => lines += size(inner) + 1,
        }
    }
    match &block.close {
        Close::Qed { .. } | Close::Contradiction { .. } => lines + 1,
        Close::Cases { first, second, .. } => lines + size(first) + size(second) + 1,
    }
}

/// How many blocks are one inside the other, itself included.
#[tactic(auto, using(crate::proofs::Scripts::depths))]
pub fn depth(block: &Block) -> u32
    requires { Rattle.e_deriv.specs.Script.depth (script_of block.now) < 2 ^ 32 }
    ensures { result ≡ Rattle.e_deriv.specs.Script.depth (script_of block.now) }
{
    let mut deepest = 0u32;
    for step in &block.steps {
        match step {
            Step::Cite(_) | Step::Hence { .. } | Step::Make { .. } | Step::Apply { .. } => {}
            Step::Claim { inner, .. } => deepest = deepest.max(depth(inner) + 1),
            Step::Superposed { inner, .. } => deepest = deepest.max(depth(inner) + 1),
        }
    }
    match &block.close {
        Close::Qed { .. } | Close::Contradiction { .. } => deepest.max(1),
        Close::Cases { first, second, .. } => deepest.max(depth(first).max(depth(second)) + 1),
    }
}
