//! `make`: a book from a number.
ghost use Rattle.std.specs.Prelude.{◌≤◌};
ghost use Rattle.e_io.specs.Bytes.{Rose};
ghost use Rattle.e_line.specs.Limits.{most_theorems};
ghost use Rattle.e_commands.specs.Answers.{IsReadFault, IsWriteFault};
ghost use Rattle.e_commands.specs.Wrote.{Wrote};
ghost use Rattle.e_commands.specs.MadeBooks.{MadeAnswer};

use crate::output::{Failure, close, finish};
use crate::status::Status;
use e_generate::generated;
use e_io::Sink;
use std::alloc::Global;

/// Writes the generated book of this many theorems.
pub fn make<K: Sink>(alloc: Global, theorems: u32, sink: &mut K) -> Status
    requires { theorems ≤ most_theorems }
    ensures makes { Wrote (MadeAnswer theorems) (K.written sink.old) (K.written sink.new) result }
    ensures rises { K.faults sink.old ≤ K.faults sink.new }
    ensures cause { IsWriteFault result → Rose (K.faults sink.old) (K.faults sink.new) }
    ensures no_read { IsReadFault result → ⊥ }
{
    match generated(alloc, theorems) {
        Ok(book) => close(sink, &book, Status::Made { theorems }),
        Err(_) => finish(sink, Err(Failure::NoMemory)),
    }
}
