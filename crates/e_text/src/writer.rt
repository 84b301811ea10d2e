//! Words written after spaces, and the ends of lines. Each of these functions adds bytes to what is
//! written. It fails only when out of memory, and then what was written before is as it was.
ghost use Rattle.std.specs.Prelude.{◌≡◌, ◌≤◌, ◌++◌, ◌∷◌, [], ◌==◌, if◌then◌else◌};
ghost use Rattle.std.specs.Prelude.{decimal, length, map, take, OnOk, OnErr};
ghost use Rattle.e_text.specs.Tokens.{with_spaces};

use crate::name::Name;
use itoa::{Buffer, Integer};
use std::alloc::AllocError;

// Writes a word after a space, or leaves only this many of the first bytes: what writes several
// words says where it began, so that nothing of them is left.
fn put_or_cut(out: &mut Vec<u8>, word: &[u8], before: usize) -> Result<(), AllocError>
    requires { before ≤ length out.old.items }
    ensures ok { OnOk result (out.new.items ≡ out.old.items ++ 32 ∷ word.now) }
    ensures err { OnErr result (out.new.items ≡ take before out.old.items) }
{
    if let Err(lack) = out.push(b' ') {
        out.truncate(before);
        return Err(lack.into());
    }
    let put = match word {
        [byte] => out.push(*byte).map_err(|lack| lack.into()),
        _ => out.extend_from_slice(word),
    };
    if let Err(lack) = put {
        out.truncate(before);
        return Err(lack.into());
    }
    Ok(())
}

/// Writes a word after a space.
pub fn put(out: &mut Vec<u8>, word: &[u8]) -> Result<(), AllocError>
    ensures ok { OnOk result (out.new.items ≡ out.old.items ++ 32 ∷ word.now) }
    ensures err { OnErr result (out.new.items ≡ out.old.items) }
{
    let before = out.len();
    put_or_cut(out, word, before)
}

/// Writes words in their order, each after a space.
pub fn put_words(out: &mut Vec<u8>, words: &[&[u8]]) -> Result<(), AllocError>
    ensures ok { OnOk result
        (out.new.items ≡ out.old.items ++ with_spaces (map (λ w. w.now) words.now)) }
    ensures err { OnErr result (out.new.items ≡ out.old.items) }
{
    let before = out.len();
    for word in words {
        put_or_cut(out, word, before)?;
    }
    Ok(())
}

/// Writes a number after a space, by its decimal digits.
pub fn put_number<I: Integer>(out: &mut Vec<u8>, number: I) -> Result<(), AllocError>
    ensures ok { OnOk result (out.new.items ≡ out.old.items ++ 32 ∷ I.text number) }
    ensures err { OnErr result (out.new.items ≡ out.old.items) }
{
    let mut digits = Buffer::new();
    put(out, digits.format(number).as_bytes())
}

/// Writes a coefficient after a space, and nothing for 1.
pub fn put_coefficient(out: &mut Vec<u8>, coeff: u32) -> Result<(), AllocError>
    ensures ok { OnOk result
        (out.new.items ≡ out.old.items ++ with_spaces (if coeff == 1 then [] else decimal coeff ∷ [])) }
    ensures err { OnErr result (out.new.items ≡ out.old.items) }
{
    if coeff == 1 {
        return Ok(());
    }
    put_number(out, coeff)
}

/// Writes names in their order, each after a space.
pub fn put_names(out: &mut Vec<u8>, names: &[Name]) -> Result<(), AllocError>
    ensures ok { OnOk result (out.new.items ≡ out.old.items ++ with_spaces names.now) }
    ensures err { OnErr result (out.new.items ≡ out.old.items) }
{
    let before = out.len();
    for name in names {
        put_or_cut(out, name.bytes(), before)?;
    }
    Ok(())
}

/// Ends a line by a line feed.
pub fn end_line(out: &mut Vec<u8>) -> Result<(), AllocError>
    ensures ok { OnOk result (out.new.items ≡ out.old.items ++ 10 ∷ []) }
    ensures err { OnErr result (out.new.items ≡ out.old.items) }
{
    out.push(b'\n')?;
    Ok(())
}

/// Writes these bytes as a line, with its end.
pub fn put_line(out: &mut Vec<u8>, line: &[u8]) -> Result<(), AllocError>
    ensures ok { OnOk result (out.new.items ≡ out.old.items ++ (line.now ++ 10 ∷ [])) }
    ensures err { OnErr result (out.new.items ≡ out.old.items) }
{
    let before = out.len();
    out.extend_from_slice(line)?;
    if let Err(lack) = out.push(b'\n') {
        out.truncate(before);
        return Err(lack.into());
    }
    Ok(())
}
