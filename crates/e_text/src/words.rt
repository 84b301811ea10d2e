//! The words of the language.
ghost use Rattle.std.specs.Prelude.{◌≡◌, IsTrue, map};
ghost use Rattle.std.specs.Str.{bytes_eq};
ghost use Rattle.e_text.specs.Names.{is_reserved, reserved_words};
ghost use Rattle.e_text.specs.inner.Words.{has_small_second};

static WORDS: [&[u8]; 45] = [
    b"theorem",
    b"points",
    b"lines",
    b"circles",
    b"given",
    b"made",
    b"show",
    b"proof",
    b"end",
    b"by",
    b"hence",
    b"let",
    b"apply",
    b"as",
    b"claim",
    b"superpose",
    b"onto",
    b"qed",
    b"contradiction",
    b"cases",
    b"else",
    b"not",
    b"on",
    b"inside",
    b"center",
    b"between",
    b"meets",
    b"seg",
    b"ang",
    b"area",
    b"right",
    b"point",
    b"line",
    b"circle",
    b"side",
    b"opposite",
    b"of",
    b"beyond",
    b"from",
    b"outside",
    b"meet",
    b"centers",
    b"avoid",
    b"define",
    b"figure",
];

/// Whether a token is this word. Their last bytes are looked at first, since most words of one
/// length differ there.
pub fn is(token: &[u8], word: &[u8]) -> bool
    ensures { result ≡ bytes_eq token.now word.now }
{
    if !end_alike(token, word) {
        return false;
    }
    *token == *word
}

/// Whether there are as many bytes, and the last ones are the same.
fn end_alike(a: &[u8], b: &[u8]) -> bool
    ensures { a.now ≡ b.now → IsTrue result }
{
    a.len() == b.len() && (a.is_empty() || a[a.len() - 1] == b[b.len() - 1])
}

/// Whether the second byte is a small letter, as that of every word of the language; most names
/// have none there.
fn has_small_second(token: &[u8]) -> bool
    ensures { result ≡ has_small_second token.now }
{
    match token {
        [_, second, ..] => second.is_ascii_lowercase(),
        _ => false,
    }
}

/// Whether a token is one of the 45 words of the language. It takes no memory.
pub fn reserved(token: &[u8]) -> bool
    ensures { result ≡ is_reserved token.now }
{
    has_small_second(token) && words().iter().any(|word| is(token, word))
}

#[tactic(auto, unfolding(crate::specs::Names::reserved_words))]
fn words() -> &'static [&'static [u8]]
    ensures { map (λ word. word.now) result.now ≡ reserved_words }
{
    &WORDS
}
