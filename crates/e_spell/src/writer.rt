//! Derivations as texts.
ghost use Rattle.std.specs.Prelude.{◌≡◌, IfOk};
ghost use Rattle.e_deriv.specs.Script.{script_of};
ghost use Rattle.e_book.specs.TheoremViews.{entry_of};
ghost use Rattle.e_spell.specs.Spelling.{spelling};

use crate::head::put_head;
use crate::proof::put_block;
use crate::scope::first_names;
use e_book::Theorem;
use e_deriv::Block;
use e_names::Theorems;
use e_text::put_line;
use std::alloc::{AllocError, Global};
use std::mem;

/// The one spelling of a theorem with a derivation: the theorem's lines to the word `proof`, each
/// line of the derivation, below it its certificates and then the blocks inside it, and `end`. Each
/// line ends with a line feed.
///
/// An earlier theorem that the derivation uses is written by its title, which it has among those
/// that are known. The theorem's own block is not written. An object without a name is written as
/// `nameless`, and a theorem that is not known by no word. It fails only out of memory. The text
/// takes 4096 bytes, or at most a few times the memory of the theorem, the derivation and the titles
/// that it writes.
pub fn spell(
    alloc: Global,
    known: &Theorems,
    theorem: &Theorem,
    deriv: &Block,
) -> Result<Vec<u8>, AllocError>
    ensures { IfOk result
        (λ v. v.items ≡ spelling known.now (entry_of theorem.now) (script_of deriv.now)) }
{
    let mut out = Vec::with_capacity(alloc, 4096)?;
    let declared = put_head(
        alloc,
        &mut out,
        theorem.title,
        &theorem.names,
        &theorem.statement,
    )?;
    let names = first_names(alloc, &theorem.names, declared)?;
    let put = put_block(alloc, &mut out, known, &names, deriv);
    mem::drop(names);
    put?;
    put_line(&mut out, b"end")?;
    Ok(out)
}
