//! Sums of forms, term by term. A term is kept as its key, so that two are compared at once.

ghost use Rattle.std.specs.Prelude.{◌≡◌, ◌<◌, ◌+ℤ◌, ◌^◌, ◌↔◌, IsTrue, OnOk, [], ◌∷◌, pos};
ghost use Rattle.std.specs.Prelude.{unsigned_abs};
ghost use Rattle.std.specs.Int.{int_wrap, w128};
ghost use Rattle.e_literal.specs.declared.object.Term.{Term as ATerm};
ghost use Rattle.e_literal.specs.Rows.{coefficient, normal_summands, times};
ghost use Rattle.e_verify.specs.inner.Totals as totals;
ghost use Rattle.e_verify.specs.inner.Totals.{total_at};

use crate::key::key_of;
use e_literal::{Term, canonical, is_degenerate};
use std::alloc::{AllocError, Global};
use std::marker::Model;

/// A sum, as the keys of its terms with their coefficients. A term may come several times.
#[derive(Drop)]
pub struct Totals {
    summands: Vec<(u64, i128)>,
}

impl Model for Totals {
    ghost use Rattle.std.specs.Prelude.{List, ℕ, ℤ};
    ghost use Rattle.std.specs.List.{All};
    ghost use Rattle.e_verify.specs.inner.Totals.{IsKeyed};

    ghost Value = { List (ℕ × ℤ) };

    ghost view = { λ t. t.summands.items };

    ghost invariant = { λ t. All IsKeyed t.summands.items };
}

impl Totals {
    /// The sum of nothing.
    pub fn new(alloc: Global) -> Totals
        ensures { result ≡ [] }
    {
        Totals {
            summands: Vec::new(alloc),
        }
    }

    /// Adds a term with its coefficient, as a row has it: in its normal order, and dropped where it
    /// is 0.
    pub fn add(&mut self, term: Term, n: i128) -> Result<(), AllocError>
        ensures { OnOk result ((t : ATerm) → total_at self.new t ≡ total_at self.old t
            +ℤ coefficient (normal_summands (times n term ∷ [])) t) }
    {
        if is_degenerate(term) {
            return Ok(());
        }
        let ordered = canonical(term);
        let key = key_of(ordered);
        self.summands.push((key, n))?;
        Ok(())
    }

    /// Whether each term cancels.
    pub fn all_cancel(self) -> bool
        requires { (t : ATerm) → unsigned_abs (total_at self t) < 2 ^ 127 }
        ensures { IsTrue result ↔ ((t : ATerm) → total_at self t ≡ pos 0) }
    {
        let Totals { mut summands } = self;
        summands.sort_unstable_by_key(|summand| summand.0);
        cancel_in_runs(&summands)
    }
}

/// Whether the sum of each run of one key is 0. Additions wrap: what overflows on the way cancels,
/// since each whole sum is below 2^127 in size.
fn cancel_in_runs(summands: &[(u64, i128)]) -> bool
    ensures { result ≡ totals.cancel_in_runs 0 (pos 0) summands.now }
{
    let mut key = 0u64;
    let mut so_far = 0i128;
    for summand in summands {
        if summand.0 == key {
            so_far = wrapped_sum(so_far, summand.1);
            continue;
        }
        if so_far != 0 {
            return false;
        }
        key = summand.0;
        so_far = wrapped_sum(0, summand.1);
    }
    so_far == 0
}

fn wrapped_sum(a: i128, b: i128) -> i128
    ensures { result ≡ int_wrap w128 (a +ℤ b) }
{
    a.wrapping_add(b)
}
