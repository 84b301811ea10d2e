//! What holds between reading, spelling and verifying: each law is the contract of a function.
ghost use Rattle.e_roundtrip.specs.Laws.{ReadIsSpelled, ReadTextIsSpelled, ReadCanBeSpelled};
ghost use Rattle.e_roundtrip.specs.Laws.{SpelledIsRead, CertifiedIsFormed, FilledHasSpelling};
ghost use Rattle.e_roundtrip.specs.Laws.{TrimmedHasSpelling, WrittenIsJudged};
ghost use Rattle.e_roundtrip.specs.Laws.{WrittenIsVerified, VerifiedIsWritten};
ghost use Rattle.e_roundtrip.specs.Laws.{OneTreeForOneText, GarbledSpellsNothing};
ghost use Rattle.e_roundtrip.specs.Laws.{ItemsAddWhatTheyMean};

/// An item of a statement adds what its notion gives of the objects that it names, all of it, and
/// nothing else.
pub fn items_add_what_they_mean()
    ensures { ItemsAddWhatTheyMean }
{}

/// The lines that are read as a theorem with its derivation are exactly the lines of its one
/// spelling.
pub fn what_is_read_is_spelled_so()
    ensures { ReadIsSpelled }
{}

/// The bytes that are read as a theorem with its derivation are its one text: one tree has one
/// spelling.
pub fn one_text_for_one_tree()
    ensures { ReadTextIsSpelled }
{}

/// What is read as a theorem with its derivation can be spelled, whether its certificates certify
/// or not.
pub fn what_is_read_can_be_spelled()
    ensures { ReadCanBeSpelled }
{}

/// The lines of a derivation's one spelling, whatever follows them, are read as the theorem with
/// that derivation, whether its certificates certify or not.
pub fn spelled_is_read()
    ensures { SpelledIsRead }
{}

/// A derivation that is certified has certificates such as lines can say.
pub fn certified_is_formed()
    ensures { CertifiedIsFormed }
{}

/// A theorem that can be spelled still can when a certified derivation fills its blanks.
pub fn filled_has_spelling()
    ensures { FilledHasSpelling }
{}

/// A theorem that can be spelled still can when the idle steps of its certified derivation of the
/// first version are left out.
pub fn trimmed_has_spelling()
    ensures { TrimmedHasSpelling }
{}

/// What is written of derivations that can be spelled is a derivation text that is judged as their
/// verdicts say.
pub fn written_is_judged()
    ensures { WrittenIsJudged }
{}

/// What is written of certified derivations is a derivation text that is judged verified.
pub fn written_is_verified()
    ensures { WrittenIsVerified }
{}

/// A text that is judged verified is the head line, the spellings of theorems, each with a
/// derivation that proves it from those before it, and the line with their number; and lines can
/// spell them.
pub fn verified_is_written()
    ensures { VerifiedIsWritten }
{}

/// A text spells at most one list of theorems with their derivations: one spelling has one tree.
pub fn one_tree_for_one_text()
    ensures { OneTreeForOneText }
{}

/// A text in which a line is malformed at its place spells no proofs.
pub fn garbled_spells_nothing()
    ensures { GarbledSpellsNothing }
{}
