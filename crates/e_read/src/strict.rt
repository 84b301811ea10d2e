//! Neighbouring lines that could be one.
ghost use Rattle.std.specs.Prelude.{◌≡◌};
ghost use Rattle.e_read.specs.Owing.{ends_with};
ghost use Rattle.e_read.specs.inner.Strict.{is_apart};

use e_book::TheoremParser;
use e_line::RawLine;
use e_literal::{Sort, is_same_sort};

/// Whether the last of these objects has this sort.
#[tactic(auto, using(crate::proofs::Ends::ends_after))]
fn ends_with(sorts: &[Sort], sort: Sort) -> bool
    ensures { result ≡ ends_with sorts.now sort }
{
    match sorts {
        [] => false,
        [only] => is_same_sort(*only, sort),
        [_, rest @ ..] => ends_with(rest, sort),
    }
}

/// Whether the line is no neighbour of one that has objects of its sort too.
pub(crate) fn is_apart(parser: &TheoremParser, raw_line: &RawLine) -> bool
    ensures { result ≡ is_apart parser.now raw_line.now }
{
    match raw_line {
        RawLine::Declare(sort, _) => !ends_with(parser.declared.items(), *sort),
        RawLine::Made(sort, _) => !ends_with(parser.made.items(), *sort),
        _ => true,
    }
}
