//! Derivations.

ghost use Rattle.std.specs.Prelude.{◌≡◌, None, Err, IfOk, IfSome};
ghost use Rattle.e_theorem.specs.Statements.{as_view, as_views};
ghost use Rattle.e_deriv.specs.Certified.{verdict};
ghost use Rattle.e_deriv.specs.Proves.{IsProof};
ghost use Rattle.e_deriv.specs.Script.{script_of};
ghost use Rattle.e_verify.specs.Verdicts.{IsVerifiable};

use e_deriv::Block;
use e_theorem::Statement;
use e_verify::{Reject, verify};
use std::alloc::{AllocError, Global};

/// The first step of a derivation that its certificate does not certify, where steps are counted
/// from 1; or nothing, and then it is a proof of the statement from those before. It fails only out
/// of memory.
pub fn first_uncertified(
    alloc: Global,
    before: &[Statement],
    statement: &Statement,
    deriv: &Block,
) -> Result<Option<u32>, AllocError>
    requires { IsVerifiable (as_views before.now) (as_view statement.now) (script_of deriv.now) }
    ensures none { IfOk result (λ o. o ≡ None
        → IsProof (as_views before.now) (as_view statement.now) (script_of deriv.now)) }
    ensures step { IfOk result (λ o. IfSome o (λ n.
        verdict (as_views before.now) (as_view statement.now) (script_of deriv.now) ≡ Err n)) }
{
    match verify(alloc, before, statement, deriv) {
        Ok(()) => Ok(None),
        Err(Reject::Bad { step }) => Ok(Some(step)),
        Err(Reject::NoMemory) => Err(AllocError),
    }
}
