//! The words of a command.
ghost use Rattle.std.specs.Prelude.{◌≡◌, ◌≤◌, IfSome, map, string_bytes};
ghost use Rattle.e_line.specs.Limits.{most_theorems};
ghost use Rattle.e_run.specs.Words.{number_to, plain_command, counted_command};
ghost use Rattle.e_run.specs.Words.{placed_command, command_of, OfCount, OfStep};

use e_commands::Job;
use e_text::{Title, number};

/// The most theorems of a generated book.
const MOST_THEOREMS: u32 = 500;

/// The most steps of a theorem.
const MOST_STEPS: u32 = 1024;

/// What a run is asked for.
#[derive(Clone, Copy)]
pub enum Command {
    Check,
    Verify,
    Figure,
    /// A derivation text is verified, and this is written of it.
    Rewrite(Job),
    /// This many theorems are generated.
    Make(u32),
    /// This many theorems are generated, checked and verified.
    Trial(u32),
    /// What may be applied at a step of the theorem with this title.
    Suggest(Title, u32),
    Unknown,
}

/// A numeral from 1 to this number.
fn number_to(most: u32, word: &[u8]) -> Option<u32>
    ensures value { result ≡ number_to most word.now }
    ensures few { IfSome result (λ n. n ≤ most) }
    ensures first { IfSome result (λ n. 1 ≤ n) }
{
    match number(word) {
        Some(n) if 1 <= n && n <= most as u128 => Some(n as u32),
        _ => None,
    }
}

/// The command of one word.
fn plain_command(word: &[u8]) -> Command
    ensures value { result ≡ plain_command word.now }
    ensures few { OfCount (λ n. n ≤ most_theorems) result }
    ensures first { OfStep (λ n. 1 ≤ n) result }
{
    if word == b"check".as_slice() {
        Command::Check
    } else if word == b"verify".as_slice() {
        Command::Verify
    } else if word == b"upgrade".as_slice() {
        Command::Rewrite(Job::Upgrade)
    } else if word == b"figure".as_slice() {
        Command::Figure
    } else if word == b"trim".as_slice() {
        Command::Rewrite(Job::Trim)
    } else if word == b"uses".as_slice() {
        Command::Rewrite(Job::Uses)
    } else {
        Command::Unknown
    }
}

/// The command of a word and a number.
fn counted_command(word: &[u8], count: Option<u32>) -> Command
    requires { IfSome count (λ n. n ≤ most_theorems) }
    ensures value { result ≡ counted_command word.now count }
    ensures few { OfCount (λ n. n ≤ most_theorems) result }
    ensures first { OfStep (λ n. 1 ≤ n) result }
{
    let Some(count) = count else {
        return Command::Unknown;
    };
    if word == b"make".as_slice() {
        Command::Make(count)
    } else if word == b"trial".as_slice() {
        Command::Trial(count)
    } else {
        Command::Unknown
    }
}

/// The command of a word, a title and the number of a step.
fn placed_command(word: &[u8], title: Option<Title>, step: Option<u32>) -> Command
    requires { IfSome step (λ n. 1 ≤ n) }
    ensures value { result ≡ placed_command word.now title step }
    ensures few { OfCount (λ n. n ≤ most_theorems) result }
    ensures first { OfStep (λ n. 1 ≤ n) result }
{
    let (Some(title), Some(step)) = (title, step) else {
        return Command::Unknown;
    };
    if word == b"suggest".as_slice() {
        Command::Suggest(title, step)
    } else {
        Command::Unknown
    }
}

/// What these words ask for.
pub fn command_of(words: &[String]) -> Command
    ensures value { result ≡ command_of (map string_bytes words.now) }
    ensures few { OfCount (λ n. n ≤ most_theorems) result }
    ensures first { OfStep (λ n. 1 ≤ n) result }
{
    match words {
        [word] => plain_command(word.as_bytes()),
        [word, number] => counted_command(
            word.as_bytes(),
            number_to(MOST_THEOREMS, number.as_bytes()),
        ),
        [word, title, number] => placed_command(
            word.as_bytes(),
            Title::read(title.as_bytes()),
            number_to(MOST_STEPS, number.as_bytes()),
        ),
        _ => Command::Unknown,
    }
}
