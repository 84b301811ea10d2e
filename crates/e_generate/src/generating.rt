//! The book that `make` writes.
ghost use Rattle.std.specs.Prelude.{◌≡◌, ◌≤◌, ◌<◌, ◌^◌, ◌+◌, ◌-◌, ◌++◌};
ghost use Rattle.std.specs.Prelude.{OnOk, IfOk, string_bytes, flat_map};
ghost use Rattle.e_generate.specs.Generated;
ghost use Rattle.e_generate.specs.Generated.{numbers};

use std::alloc::{AllocError, Global};
use std::fmt::Write;

/// A point after a space.
fn put_point(out: &mut String, number: u32) -> Result<(), AllocError>
    ensures { OnOk result (string_bytes out.new ≡ string_bytes out.old ++ Generated.point number) }
{
    write!(out, " p{number}")
}

/// The points before this number, each after a space.
fn put_points(out: &mut String, count: u32) -> Result<(), AllocError>
    ensures { OnOk result
        (string_bytes out.new ≡ string_bytes out.old ++ Generated.points_to count) }
{
    for i in 0..count {
        put_point(out, i)?;
    }
    Ok(())
}

/// A segment after a space.
fn put_segment(out: &mut String, from: u32, to: u32) -> Result<(), AllocError>
    ensures { OnOk result
        (string_bytes out.new ≡ string_bytes out.old ++ Generated.segment from to) }
{
    write!(out, " seg p{from} p{to}")
}

/// That a point is between its neighbours.
fn put_given_line(out: &mut String, i: u32) -> Result<(), AllocError>
    requires { i < 2 ^ 16 }
    ensures { OnOk result
        (string_bytes out.new ≡ string_bytes out.old ++ Generated.given_between_line i) }
{
    let (middle, after) = (i + 1, i + 2);
    write!(out, "given between p{i} p{middle} p{after}\n")
}

/// The given literals: each point is between its neighbours.
fn put_given(out: &mut String, last: u32) -> Result<(), AllocError>
    requires { (3 ≤ last) × (last < 2 ^ 16) }
    ensures { OnOk result (string_bytes out.new ≡ string_bytes out.old
        ++ flat_map Generated.given_between_line (numbers 0 (last - 1))) }
{
    for i in 0..last - 1 {
        put_given_line(out, i)?;
    }
    Ok(())
}

/// One more length of a sum.
fn put_added(out: &mut String, i: u32) -> Result<(), AllocError>
    requires { i < 2 ^ 16 }
    ensures { OnOk result
        (string_bytes out.new ≡ string_bytes out.old ++ Generated.plus_segment i) }
{
    let after = i + 1;
    write!(out, " + seg p{i} p{after}")
}

/// The lengths between neighbours after the first.
fn put_sum(out: &mut String, last: u32) -> Result<(), AllocError>
    requires { (3 ≤ last) × (last < 2 ^ 16) }
    ensures { OnOk result (string_bytes out.new ≡ string_bytes out.old
        ++ flat_map Generated.plus_segment (numbers 1 (last - 1))) }
{
    for i in 1..last {
        put_added(out, i)?;
    }
    Ok(())
}

/// What is shown first: the lengths between neighbours make the whole length.
fn put_show_sum(out: &mut String, last: u32) -> Result<(), AllocError>
    requires { (3 ≤ last) × (last < 2 ^ 16) }
    ensures { OnOk result (string_bytes out.new ≡ string_bytes out.old ++ Generated.show_sum last) }
{
    out.push_str("show")?;
    put_segment(out, 0, 1)?;
    put_sum(out, last)?;
    out.push_str(" =")?;
    put_segment(out, 0, last)?;
    out.push_str("\n")
}

/// What is shown second: the first length is less than the whole.
fn put_show_less(out: &mut String, last: u32) -> Result<(), AllocError>
    ensures { OnOk result
        (string_bytes out.new ≡ string_bytes out.old ++ Generated.show_less last) }
{
    out.push_str("show")?;
    put_segment(out, 0, 1)?;
    out.push_str(" <")?;
    put_segment(out, 0, last)?;
    out.push_str("\n")
}

/// The statement of a theorem.
fn put_statement(out: &mut String, number: u32, last: u32) -> Result<(), AllocError>
    requires { (3 ≤ last) × (last < 2 ^ 16) }
    ensures { OnOk result
        (string_bytes out.new ≡ string_bytes out.old ++ Generated.statement number last) }
{
    write!(out, "theorem G{number}\npoints")?;
    put_points(out, last + 1)?;
    out.push_str("\n")?;
    put_given(out, last)?;
    put_show_sum(out, last)?;
    put_show_less(out, last)
}

/// The use of the theorem before, where that has one point less.
fn put_earlier(out: &mut String, number: u32, last: u32) -> Result<(), AllocError>
    requires { 1 ≤ number }
    ensures { OnOk result
        (string_bytes out.new ≡ string_bytes out.old ++ Generated.line_before number last) }
{
    if last > 3 {
        write!(out, "apply G{}", number - 1)?;
        put_points(out, last)?;
        out.push_str("\n")?;
    }
    Ok(())
}

/// The step by which three points in order are in order from the other end.
fn put_turned(out: &mut String, i: u32, j: u32, k: u32) -> Result<(), AllocError>
    ensures { OnOk result (string_bytes out.new ≡ string_bytes out.old ++ Generated.turned_line i j k) }
{
    write!(out, "by b1a p{i} p{j} p{k} : between p{k} p{j} p{i}\n")
}

/// The step by which two runs of three points join.
fn put_run(out: &mut String, i: u32) -> Result<(), AllocError>
    requires { (1 ≤ i) × (i < 2 ^ 16) }
    ensures { OnOk result (string_bytes out.new ≡ string_bytes out.old ++ Generated.run i) }
{
    let (first, before, after) = (0u32, i - 1, i + 1);
    write!(
        out,
        "by b5 p{after} p{i} p{before} p0 : between p{after} p{i} p{first}\n"
    )
}

/// The steps by which a point is between the first and the next.
fn put_cites(out: &mut String, i: u32) -> Result<(), AllocError>
    requires { (1 ≤ i) × (i < 2 ^ 16) }
    ensures { OnOk result (string_bytes out.new ≡ string_bytes out.old ++ Generated.cites i) }
{
    put_turned(out, i - 1, i, i + 1)?;
    put_run(out, i)?;
    put_turned(out, i + 1, i, 0)
}

/// These steps for all points between the second and the last.
fn put_all_cites(out: &mut String, last: u32) -> Result<(), AllocError>
    requires { (3 ≤ last) × (last < 2 ^ 16) }
    ensures { OnOk result (string_bytes out.new ≡ string_bytes out.old
        ++ flat_map Generated.cites (numbers 2 (last - 2))) }
{
    for i in 2..last {
        put_cites(out, i)?;
    }
    Ok(())
}

/// The step by which the length up to a point and the next make one.
fn put_hence(out: &mut String, i: u32) -> Result<(), AllocError>
    requires { i < 2 ^ 16 }
    ensures { OnOk result (string_bytes out.new ≡ string_bytes out.old ++ Generated.hence_line i) }
{
    out.push_str("hence")?;
    put_segment(out, 0, i)?;
    put_added(out, i)?;
    out.push_str(" =")?;
    put_segment(out, 0, i + 1)?;
    out.push_str("\n")
}

/// These steps, one neighbour after another.
fn put_lengths(out: &mut String, last: u32) -> Result<(), AllocError>
    requires { (3 ≤ last) × (last < 2 ^ 16) }
    ensures { OnOk result (string_bytes out.new ≡ string_bytes out.old
        ++ flat_map Generated.hence_line (numbers 1 (last - 1))) }
{
    for i in 1..last {
        put_hence(out, i)?;
    }
    Ok(())
}

/// The proof of a theorem.
fn put_proof(out: &mut String, number: u32, last: u32) -> Result<(), AllocError>
    requires number { 1 ≤ number }
    requires last { (3 ≤ last) × (last < 2 ^ 16) }
    ensures { OnOk result
        (string_bytes out.new ≡ string_bytes out.old ++ Generated.proof number last) }
{
    out.push_str("proof\n")?;
    put_earlier(out, number, last)?;
    out.push_str("by b1b p1 p2 p3 : p1 != p2\n")?;
    put_turned(out, 0, 1, 2)?;
    put_all_cites(out, last)?;
    put_lengths(out, last)?;
    out.push_str("qed\nend\n")
}

/// A theorem of the book.
fn put_theorem(out: &mut String, number: u32) -> Result<(), AllocError>
    requires { 1 ≤ number }
    ensures { OnOk result
        (string_bytes out.new ≡ string_bytes out.old ++ Generated.generated_theorem_text number) }
{
    let last = 3 + (number - 1) % 6;
    put_statement(out, number, last)?;
    put_proof(out, number, last)
}

/// The book of this many theorems. It fails only out of memory.
pub fn generated(alloc: Global, theorems: u32) -> Result<Vec<u8>, AllocError>
    requires { theorems ≤ 500 }
    ensures { IfOk result (λ v. v.items ≡ Generated.generated_text theorems) }
{
    let mut out = String::new(alloc);
    for number in 1..=theorems {
        put_theorem(&mut out, number)?;
    }
    Ok(out.into_bytes())
}
