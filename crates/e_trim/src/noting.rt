//! The earlier theorems that a derivation applies.

ghost use Rattle.std.specs.Prelude.{◌≡◌, ◌==◌, IfOk, OnOk};
ghost use Rattle.std.specs.List.{list_any};
ghost use Rattle.e_deriv.specs.Script.{script_of, close_script};
ghost use Rattle.e_trim.specs.Applied.{places_of, applied_by};
ghost use Rattle.e_trim.specs.Applied;

use e_deriv::{Block, Close, Step};
use std::alloc::{AllocError, Global};

/// Whether the place is among these.
fn is_among(places: &[u32], place: u32) -> bool
    ensures { result ≡ list_any (λ q. q == place) places.now }
{
    places.iter().any(|p| *p == place)
}

/// Puts the place last, unless it is there.
#[tactic(auto, using(crate::proofs::walks::Places::noting))]
fn note(places: &mut Vec<u32>, place: u32) -> Result<(), AllocError>
    ensures { OnOk result (places.new.items ≡ Applied.with_new_place places.old.items place) }
{
    if !is_among(places, place) {
        places.push(place)?;
    }
    Ok(())
}

/// The theorems that the block applies.
#[cycle(note_block)]
#[tactic(auto, using(crate::proofs::walks::Places::noting))]
fn note_block(places: &mut Vec<u32>, block: &Block) -> Result<(), AllocError>
    ensures { OnOk result
        (places.new.items ≡ Applied.with_new_places places.old.items (places_of (script_of block.now))) }
{
    for step in &block.steps {
        note_step(places, step)?;
    }
    note_close(places, &block.close)
}

/// The theorems that the step applies, and those of the block inside of it.
#[cycle(note_block)]
#[tactic(auto, using(crate::proofs::walks::Places::noting))]
fn note_step(places: &mut Vec<u32>, step: &Step) -> Result<(), AllocError>
    ensures { OnOk result
        (places.new.items ≡ Applied.with_new_places places.old.items (Applied.places_of_step step.now)) }
{
    match step {
        Step::Cite(_) | Step::Hence { .. } | Step::Make { .. } => Ok(()),
        Step::Apply { theorem, .. } => note(places, *theorem),
        Step::Claim { inner, .. } => note_block(places, inner),
        Step::Superposed { inner, .. } => note_block(places, inner),
    }
}

/// The theorems that the blocks of the close apply.
#[cycle(note_block)]
#[tactic(auto, using(crate::proofs::walks::Places::noting))]
fn note_close(places: &mut Vec<u32>, close: &Close) -> Result<(), AllocError>
    ensures { OnOk result (places.new.items
        ≡ Applied.with_new_places places.old.items (places_of (close_script close.now))) }
{
    match close {
        Close::Qed { .. } | Close::Contradiction { .. } => Ok(()),
        Close::Cases { first, second, .. } => {
            note_block(places, first)?;
            note_block(places, second)
        }
    }
}

/// The places of the earlier theorems that the steps of the derivation apply, in the order of their
/// first use in the text, each once. It fails only out of memory.
pub fn applied_theorems(alloc: Global, deriv: &Block) -> Result<Vec<u32>, AllocError>
    ensures { IfOk result (λ v. v.items ≡ applied_by (script_of deriv.now)) }
{
    let mut places = Vec::new(alloc);
    note_block(&mut places, deriv)?;
    Ok(places)
}
