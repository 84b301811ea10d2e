//! A multiple of one list of numbers that, added to another, leaves no 0.

ghost use Rattle.std.specs.Prelude.{◌≡◌, ◌≢◌, ℕ, ◌+◌, ◌^◌, ◌<◌, ◌≤◌, ◌+ℤ◌, ◌*ℤ◌, pos, length};
ghost use Rattle.std.specs.Prelude.{get_or, unsigned_abs, MatchOption, IfOk};
ghost use Rattle.e_fraction.specs.Limits.{most_rows_of_system};
ghost use Rattle.e_simplex.specs.inner.Multiple.{IsBad, NoneIsZero, entry_with_multiple, AddedTo};

use std::alloc::{AllocError, Global};

/// A number, and `t` times another.
fn with_multiple(x: i128, y: i128, t: usize) -> i128
    requires few { t < 2 ^ 13 }
    requires small_first { unsigned_abs x < 2 ^ 90 }
    requires small_second { unsigned_abs y < 2 ^ 65 }
    ensures { result ≡ x +ℤ pos t *ℤ y }
{
    x + t as i128 * y
}

/// The number at the place `j`, and `t` times that of the second list.
fn added_at(first: &[i128], second: &[i128], t: usize, j: usize) -> i128
    requires here { j < length first.now }
    requires there { j < length second.now }
    requires few { t < 2 ^ 13 }
    requires small_first { unsigned_abs (get_or first.now j (pos 0)) < 2 ^ 90 }
    requires small_second { unsigned_abs (get_or second.now j (pos 0)) < 2 ^ 65 }
    ensures { result ≡ entry_with_multiple first.now second.now t j }
{
    with_multiple(first[j], second[j], t)
}

/// A place, of the first `k`, where `t` times the second list leaves 0.
fn bad_place(first: &[i128], second: &[i128], k: usize, t: usize) -> Option<usize>
    requires here { k ≤ length first.now }
    requires there { k ≤ length second.now }
    requires few { t < 2 ^ 13 }
    requires small_first { (j : ℕ) → j < k → unsigned_abs (get_or first.now j (pos 0)) < 2 ^ 90 }
    requires small_second { (j : ℕ) → j < k → unsigned_abs (get_or second.now j (pos 0)) < 2 ^ 65 }
    ensures { MatchOption result
        (NoneIsZero first.now second.now k t) (IsBad first.now second.now k t) }
{
    (0..k).find(|&j| added_at(first, second, t, j) == 0)
}

/// The least multiple from 1 on that leaves no 0 among the first `k`. Each place excludes at most
/// one multiple, so one of `k + 1` is left.
pub fn least_multiple(first: &[i128], second: &[i128], k: usize) -> usize
    requires here { k ≤ length first.now }
    requires there { k ≤ length second.now }
    requires few { k ≤ most_rows_of_system }
    requires small_first { (j : ℕ) → j < k → unsigned_abs (get_or first.now j (pos 0)) < 2 ^ 90 }
    requires small_second { (j : ℕ) → j < k → unsigned_abs (get_or second.now j (pos 0)) < 2 ^ 65 }
    requires none_before { (j : ℕ) → j < k → get_or first.now j (pos 0) ≢ pos 0 }
    ensures some { 0 < result }
    ensures few { result ≤ k + 1 }
    ensures good { NoneIsZero first.now second.now k result }
{
    for t in 1..k + 2 {
        match bad_place(first, second, k, t) {
            None => return t,
            Some(_) => {}
        }
    }
    unreachable!()
}

/// Each number of the first list, and `t` times that of the second.
pub fn with_multiples(
    alloc: Global,
    first: &[i128],
    second: &[i128],
    t: usize,
) -> Result<Vec<i128>, AllocError>
    requires lengths { length first.now ≡ length second.now }
    requires few { t < 2 ^ 13 }
    requires small_first { (j : ℕ) → j < length first.now
        → unsigned_abs (get_or first.now j (pos 0)) < 2 ^ 90 }
    requires small_second { (j : ℕ) → j < length second.now
        → unsigned_abs (get_or second.now j (pos 0)) < 2 ^ 65 }
    ensures { IfOk result (λ v. AddedTo (length first.now) first.now second.now t v.items) }
{
    let mut all = Vec::with_capacity(alloc, first.len())?;
    for (x, y) in first.iter().zip(second) {
        all.push(with_multiple(*x, *y, t))?;
    }
    Ok(all)
}
