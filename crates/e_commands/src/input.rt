//! The bytes of a source.
ghost use Rattle.std.specs.Prelude.{◌≤◌, ◌+◌, ◌^◌, IfOk, IsErrOf, vec_len};
ghost use Rattle.e_io.specs.Bytes.{Rose};
ghost use Rattle.e_commands.specs.Input.{IsTextOf, IsAtEnd};
ghost use Rattle.e_commands.specs.declared.output.Failure.{Failure};

use crate::output::Failure;
use e_io::Source;
use std::alloc::Global;

/// The most bytes that a book may have, or a figure text: `MOST_BYTES` of `e_book` is the same.
pub const MOST_BYTES: usize = 4_194_304;

/// The most bytes that a line of a book may have: `LONGEST_LINE` of `e_book` is the same.
pub const LONGEST_LINE: usize = 1600;

/// The most bytes that a derivation text may have.
pub const MOST_TEXT: usize = 1 << 60;

/// The bytes of a source up to its end; where it has more than `most`, the first `most + 1`, from
/// which it is seen that they are too many.
pub fn read_text<S: Source>(alloc: Global, source: &mut S, most: usize) -> Result<Vec<u8>, Failure>
    requires { most ≤ 2 ^ 60 }
    ensures text { IfOk result (λ v. IsTextOf (most + 1) (S.left source.old) v.items) }
    ensures few { IfOk result (λ v. vec_len v ≤ most + 1) }
    ensures end { IfOk result (λ v. vec_len v ≤ most → IsAtEnd (S.left source.new)) }
    ensures rises { S.faults source.old ≤ S.faults source.new }
    ensures cause { IsErrOf result Failure.ReadFault
        → Rose (S.faults source.old) (S.faults source.new) }
    ensures no_write { IsErrOf result Failure.WriteFault → ⊥ }
{
    let mut text = Vec::new(alloc);
    let mut buffer = [0u8; 4096];
    while text.len() <= most {
        let room = (most + 1 - text.len()).min(4096);
        match source.read(&mut buffer[..room]) {
            Err(_) => return Err(Failure::ReadFault),
            Ok(0) => return Ok(text),
            Ok(n) => text.extend_from_slice(&buffer[..n])?,
        }
    }
    Ok(text)
}
