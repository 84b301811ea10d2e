//! Differences, products, and cross and dot products, of which sides and distances are made, in 128
//! bits. No number here is past 2^98, which is less than 10^30.

ghost use Rattle.std.specs.Ordering.{int_eq};
ghost use Rattle.std.specs.Prelude.{◌≡◌, ◌≤◌, ◌^◌, ◌+◌, ℤ, pos, ◌-ℤ◌, ◌*ℤ◌, unsigned_abs};
ghost use Rattle.e_figure.specs.Truth as truth;

/// Whether the two numbers are equal.
#[tactic(auto, using(crate::proofs::Bits::same_bits))]
pub fn are_equal(a: i128, b: i128) -> bool
    ensures { result ≡ int_eq a b }
{
    !(a < b) && !(b < a)
}

/// One coordinate less another.
pub fn less(a: i32, b: i32) -> i128
    requires a { unsigned_abs a ≤ 1000000 }
    requires b { unsigned_abs b ≤ 1000000 }
    ensures value { result ≡ a -ℤ b }
    ensures size { unsigned_abs result ≤ 2 ^ 21 }
{
    i128::from(a) - i128::from(b)
}

/// A number less a square.
pub fn less_square(a: i128, square: u64) -> i128
    requires a { unsigned_abs a ≤ 2 ^ 44 }
    requires square { square ≤ 1000000000000 }
    ensures value { result ≡ a -ℤ pos square }
    ensures size { unsigned_abs result ≤ unsigned_abs a + square }
{
    a - i128::from(square)
}

fn small_product(a: i128, b: i128) -> i128
    requires a { unsigned_abs a ≤ 2 ^ 21 }
    requires b { unsigned_abs b ≤ 2 ^ 21 }
    ensures value { result ≡ a *ℤ b }
    ensures size { unsigned_abs result ≤ 2 ^ 42 }
{
    a * b
}

/// The product of two numbers of the second degree.
pub fn product(a: i128, b: i128) -> i128
    requires a { unsigned_abs a ≤ 2 ^ 48 }
    requires b { unsigned_abs b ≤ 2 ^ 48 }
    ensures value { result ≡ a *ℤ b }
    ensures size { unsigned_abs result ≤ 2 ^ 96 }
{
    a * b
}

/// Four times such a product.
pub fn four_times(a: i128) -> i128
    requires { unsigned_abs a ≤ 2 ^ 96 }
    ensures value { result ≡ pos 4 *ℤ a }
    ensures size { unsigned_abs result ≤ 2 ^ 98 }
{
    4 * a
}

/// The cross product of two arrows.
pub fn cross(ux: i128, uy: i128, vx: i128, vy: i128) -> i128
    requires ux { unsigned_abs ux ≤ 2 ^ 21 }
    requires uy { unsigned_abs uy ≤ 2 ^ 21 }
    requires vx { unsigned_abs vx ≤ 2 ^ 21 }
    requires vy { unsigned_abs vy ≤ 2 ^ 21 }
    ensures value { result ≡ truth.cross ux uy vx vy }
    ensures size { unsigned_abs result ≤ 2 ^ 43 }
{
    let left = small_product(ux, vy);
    let right = small_product(uy, vx);
    left - right
}

/// Their dot product.
pub fn dot(ux: i128, uy: i128, vx: i128, vy: i128) -> i128
    requires ux { unsigned_abs ux ≤ 2 ^ 21 }
    requires uy { unsigned_abs uy ≤ 2 ^ 21 }
    requires vx { unsigned_abs vx ≤ 2 ^ 21 }
    requires vy { unsigned_abs vy ≤ 2 ^ 21 }
    ensures value { result ≡ truth.dot ux uy vx vy }
    ensures size { unsigned_abs result ≤ 2 ^ 43 }
{
    let left = small_product(ux, vx);
    let right = small_product(uy, vy);
    left + right
}
