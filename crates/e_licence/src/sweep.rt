//! A second way to walk a search: all kept choices in order, up to a given number.

ghost use Rattle.std.specs.Prelude.{◌≤◌, length, IfOk, OnOk};
ghost use Rattle.e_licence.specs.inner.Sweeps.{FoundIs, Sweeps};

use e_literal::Items;
use e_transfer::{Span, Task, Verdict};
use std::alloc::{AllocError, Global};
use std::mem;

/// How a sweep ends.
#[derive(Clone, Copy)]
pub enum Swept {
    /// All choices were tried.
    Done,
    /// There is one choice more than the most.
    Full,
    /// A part of a choice is too wide, and has this width.
    TooWide(u128),
}

/// A whole choice is found, unless there are as many as the most. It fails only out of memory.
fn found_one(
    alloc: Global,
    chosen: &[u16],
    found: &mut Items<Items<u16>>,
    most: usize,
) -> Result<Swept, AllocError>
    requires { length found.old ≤ most }
    ensures { IfOk result (FoundIs most chosen.now found.old found.new) }
{
    if found.len() == most {
        return Ok(Swept::Full);
    }
    found.push(Items::new(Vec::from_slice(alloc, chosen)?))?;
    Ok(Swept::Done)
}

/// Finds all choices that begin with `chosen`, go on with one number of each span, and whose parts
/// are all kept, in order, until there would be more than `most` in all; a wanted choice is always
/// kept. `chosen` is then what it was. Where a part is too wide, `chosen` is this part. It fails
/// only out of memory.
pub fn sweep<T: Task>(
    alloc: Global,
    task: &T,
    memory: &mut T::Memory,
    spans: &[Span],
    chosen: &mut Vec<u16>,
    found: &mut Items<Items<u16>>,
    most: usize,
) -> Result<Swept, AllocError>
    requires few { length found.old ≤ most }
    requires memory { T.right task.now memory.old }
    ensures outcome { IfOk result (Sweeps (T.kept task.now) (T.wide task.now) (T.wanted task.now)
        spans.now most chosen.old.items chosen.new.items found.old found.new) }
    ensures memory { OnOk result (T.right task.now memory.new) }
{
    let proof = match task.check(alloc, memory, chosen)? {
        Verdict::Yes(proof) => proof,
        Verdict::No => return Ok(Swept::Done),
        Verdict::TooWide(width) => return Ok(Swept::TooWide(width)),
    };
    mem::drop(proof);
    match spans {
        [] => found_one(alloc, chosen, found, most),
        [span, rest @ ..] => {
            for value in span.from..span.to {
                chosen.push(value)?;
                match sweep(alloc, task, memory, rest, chosen, found, most)? {
                    Swept::Done => {}
                    Swept::Full => return Ok(Swept::Full),
                    Swept::TooWide(width) => return Ok(Swept::TooWide(width)),
                }
                chosen.pop();
            }
            Ok(Swept::Done)
        }
    }
}
