//! A complete search for the least good choice, one number at each of a list of places.

ghost use Rattle.std.specs.Prelude.{◌≡◌, ◌++◌, ℕ, List, IfOk, OnOk, OnErr, ◌<◌, length};
ghost use Rattle.std.specs.Prelude.{slice_get, Some, false};
ghost use Rattle.e_transfer.specs.Verdicts.{VerdictIs, SearchIs, Excludes, IsExcluded};

use std::alloc::{AllocError, Global};
use std::mem;

/// The numbers from one up to another, which is not one of them.
#[derive(Clone, Copy)]
pub struct Span {
    pub from: u16,
    pub to: u16,
}

/// What is answered on the first numbers of a choice, and by a search for a whole one.
#[derive(Drop)]
pub enum Verdict<P> {
    /// The search may go on; if the choice is whole, it is found, and this is handed out for it.
    Yes(P),
    /// No choice that begins so is wanted.
    No,
    /// It cannot be decided: something here is too wide, and has this width.
    TooWide(u128),
}

/// Of so many of the least numbers is known whether they may come next.
pub const CANDIDATES: usize = 64;

/// What is searched for among choices, and how their first numbers are checked.
pub trait Task {
    /// What a check hands out for a whole choice.
    type Proof: Drop;

    /// What is remembered from check to check, so that nothing is asked twice.
    type Memory;

    // which choices are wanted, as a whole
    ghost wanted: { Self → List ℕ → Type 0 };

    // what is known of each part of a choice that is found
    ghost kept: { Self → List ℕ → Type 0 };

    // what is known of what is handed out
    ghost shown: { Self → List ℕ → Self.Proof → Type 0 };

    // what it means that something is too wide at a part
    ghost wide: { Self → List ℕ → ℕ → Type 0 };

    // what it means that what is remembered is right
    ghost right: { Self → Self.Memory → Type 0 };

    fn check(
        &self,
        alloc: Global,
        memory: &mut Self::Memory,
        part: &[u16],
    ) -> Result<Verdict<Self::Proof>, AllocError>
        requires { right self.now memory.old }
        ensures verdict { IfOk result (VerdictIs (kept self.now) (shown self.now) (wide self.now)
            (wanted self.now) part.now) }
        ensures memory { OnOk result (right self.now memory.new) };

    // Of each of the least numbers whether it may come next, if that is known.
    fn candidates(&self, part: &[u16], span: Span) -> Option<[bool; CANDIDATES]>
        ensures { Excludes (wanted self.now) part.now result };
}

/// Whether the number may come next, by what is known of the least numbers.
fn is_candidate(candidates: &Option<[bool; CANDIDATES]>, number: u16) -> bool
    ensures { result ≡ false → IsExcluded candidates.now number }
{
    match candidates {
        Some(marks) => is_marked(marks, number),
        None => true,
    }
}

fn is_marked(marks: &[bool; CANDIDATES], number: u16) -> bool
    ensures { result ≡ false → slice_get marks.now number ≡ Some false }
{
    let at = usize::from(number);
    at >= CANDIDATES || marks[at]
}

/// The least choice that begins with `chosen`, goes on with one number of each span, and whose
/// parts are all kept, with what the check hands out for the whole; no choice before it is wanted.
/// `chosen` is then this choice. `No` where no choice is wanted. `TooWide` at the first part that
/// is too wide, where no choice before it is wanted; `chosen` is then this part. It fails only out
/// of memory; `chosen` then is what it was, with some numbers after it.
pub fn search<T: Task>(
    alloc: Global,
    task: &T,
    memory: &mut T::Memory,
    spans: &[Span],
    chosen: &mut Vec<u16>,
) -> Result<Verdict<T::Proof>, AllocError>
    requires { T.right task.now memory.old }
    ensures outcome { IfOk result (SearchIs (T.kept task.now) (T.shown task.now) (T.wide task.now)
        (T.wanted task.now) spans.now chosen.old.items chosen.new.items) }
    ensures memory { OnOk result (T.right task.now memory.new) }
    ensures err { OnErr result ((more : List ℕ) × (chosen.new.items ≡ chosen.old.items ++ more)) }
{
    let proof = match task.check(alloc, memory, chosen)? {
        Verdict::Yes(proof) => proof,
        Verdict::No => return Ok(Verdict::No),
        Verdict::TooWide(width) => return Ok(Verdict::TooWide(width)),
    };
    match spans {
        [] => Ok(Verdict::Yes(proof)),
        [span, rest @ ..] => {
            mem::drop(proof);
            let candidates = task.candidates(chosen, *span);
            for value in span.from..span.to {
                if is_candidate(&candidates, value) {
                    chosen.push(value)?;
                    match search(alloc, task, memory, rest, chosen)? {
                        Verdict::No => {}
                        Verdict::Yes(proof) => return Ok(Verdict::Yes(proof)),
                        Verdict::TooWide(width) => return Ok(Verdict::TooWide(width)),
                    }
                    chosen.pop();
                }
            }
            Ok(Verdict::No)
        }
    }
}
