//! A block of a derivation text while its lines come.
ghost use Rattle.std.specs.Prelude.{◌≡◌, ◌≤◌, length, IfOk, OnOk, OnSome, IsTrue, None, Some, Err};
ghost use Rattle.std.specs.Prelude.{if◌then◌else◌};
ghost use Rattle.std.specs.List.{list_all};
ghost use Rattle.e_text.specs.Lines.{view_of_line};
ghost use Rattle.e_text.specs.Tokens.{tokens_of};
ghost use Rattle.e_deriv.specs.Fitting.{is_small_statement};
ghost use Rattle.e_line.specs.Limits.{most_theorems};
ghost use Rattle.e_line.specs.declared.fault.FaultKind.TheVariants.{Malformed};
ghost use Rattle.e_names.specs.TitledStatements.{stated_by};
ghost use Rattle.e_book.specs.TheoremViews.{entry_of};
ghost use Rattle.e_line.specs.Reading.{texts, Gives, Moves};
ghost use Rattle.e_names.specs.Scope.{FewNames};
ghost use Rattle.e_book.specs.Steps.{no_names};
ghost use Rattle.e_cert.specs.CertLines.{cert_line_is_of};
ghost use Rattle.e_cert.specs.Owed.{after_cert_line};
ghost use Rattle.e_cert.specs.CanonicalCertLines.{canonical_cert_line, cert_line_of_bytes};
ghost use Rattle.e_read.specs.inner.Machine.{owes_nothing, is_settled, at_start, with_cert_line};
ghost use Rattle.e_read.specs.inner.Machine.{parser_after_certificate, owed_by, parser_and_owed};
ghost use Rattle.e_read.specs.inner.Machine.{finish_line, with_raw_line, parser_after_exact_line};
ghost use Rattle.e_read.specs.Text.{is_bar, is_lf_end};
ghost use Rattle.e_read.specs.inner.Machine.{parser_after_words, parser_after_bytes};
ghost use Rattle.e_read.specs.inner.Machine.{parser_after_line, theorem_with_certs};
ghost use Rattle.e_read.specs.inner.Machine.{is_finished, finished_theorem, is_end};
ghost use Rattle.e_read.specs.Text.{last_line_of};
ghost use Rattle.e_read.specs.inner.Machine.{is_last_line, FitsParser, FitsReading};

use crate::filling::fill;
use crate::kept::AllCerts;
use crate::needs::due_of;
use crate::strict::is_apart;
use e_book::{Section, Theorem, TheoremParser, no_names};
use e_cert::{CertLine, Obligation, Pending, canonical_cert_line, cert_line_is_of};
use e_clause::Version;
use e_line::{LineError, RawLine, canonical_line_of, words_of_line};
use e_names::Theorems;
use e_text::{Line, LineEnd, is, put_number};
use std::alloc::{AllocError, Global};
use std::mem;

/// What has come of the lines of a block.
#[derive(Drop)]
pub struct BlockParser {
    /// The version of the text.
    pub version: Version,
    /// The theorem, once its first line has come.
    pub parser: Option<TheoremParser>,
    /// What is owed by the last line that is not one of a certificate.
    pub owed: Pending,
    /// The certificates of the lines before it.
    pub kept: AllCerts,
}

fn owes_nothing(alloc: Global) -> Pending
    ensures { result ≡ owes_nothing }
{
    Pending {
        names: no_names(alloc),
        due: Obligation::Nothing,
        sums: None,
    }
}

/// Whether no certificate is owed, and none is begun.
fn is_settled(owed: &Pending) -> bool
    ensures { result ≡ is_settled owed.now }
{
    matches!(owed.due, Obligation::Nothing) && owed.sums.is_none()
}

/// A line begins a theorem, and owes nothing.
#[tactic(auto, using(crate::proofs::MadeNames::few_begun))]
fn first_line(
    alloc: Global,
    known: &Theorems,
    raw_line: &RawLine,
) -> Result<TheoremParser, LineError>
    ensures value { Gives (λ d. (d, owes_nothing)) result
        (parser_and_owed known.now None raw_line.now) }
    ensures fits { IfOk result FitsParser }
    ensures few { OnOk result (length known.now ≤ most_theorems) }
{
    let parser = TheoremParser::begin(alloc, known, raw_line)?;
    Ok(parser)
}

/// What a line owes, with the names in scope before it.
#[tactic(auto, unfolding(crate::specs::inner::Machine::owed_by))]
fn put_owed(
    alloc: Global,
    known: &Theorems,
    parser: &TheoremParser,
    raw_line: &RawLine,
    owed: &mut Pending,
) -> Result<(), LineError>
    requires parser { FitsParser parser.now }
    requires few { length known.now ≤ most_theorems }
    requires known { IsTrue (list_all is_small_statement (stated_by known.now)) }
    requires sums { owed.old.sums ≡ None }
    ensures value { Moves result owed.new (owed_by known.now parser.now raw_line.now) }
    ensures fits { OnOk result (FewNames owed.new.names) }
{
    let due = due_of(alloc, known, parser, raw_line)?;
    mem::drop(mem::replace(&mut owed.due, due));
    let names = parser.in_scope.copy(alloc)?;
    mem::drop(mem::replace(&mut owed.names, names));
    Ok(())
}

/// A line goes on with a theorem, and owes certificates of its own.
#[tactic(auto, using(crate::proofs::MadeNames::few_after))]
fn take_next(
    alloc: Global,
    known: &Theorems,
    parser: &mut TheoremParser,
    owed: &mut Pending,
    raw_line: &RawLine,
) -> Result<(), LineError>
    requires parser { FitsParser parser.old }
    requires few { length known.now ≤ most_theorems }
    requires known { IsTrue (list_all is_small_statement (stated_by known.now)) }
    requires sums { owed.old.sums ≡ None }
    ensures value { Moves result (parser.new, owed.new)
        (parser_and_owed known.now (Some parser.old) raw_line.now) }
    ensures fits { OnOk result (FitsParser parser.new) }
    ensures names { OnOk result (FewNames owed.new.names) }
{
    if !is_apart(parser, raw_line) {
        return Err(LineError::MALFORMED);
    }
    put_owed(alloc, known, parser, raw_line, owed)?;
    parser.take(alloc, known, raw_line)?;
    Ok(())
}

/// Takes what a line of a certificate says, which may come in the version of the text.
fn take_cert_line(
    alloc: Global,
    version: Version,
    owed: &mut Pending,
    cert_line: &CertLine,
) -> Result<(), LineError>
    requires { FewNames owed.old.names }
    ensures value { Moves result owed.new (if cert_line_is_of version cert_line.now
        then after_cert_line owed.old cert_line.now else Err Malformed) }
    ensures names { OnOk result (owed.new.names ≡ owed.old.names) }
{
    if !cert_line_is_of(version, cert_line) {
        return Err(LineError::MALFORMED);
    }
    owed.after_cert_line(alloc, cert_line)
}

impl BlockParser {
    /// Before the first line, in a text of this version.
    pub(crate) fn new(alloc: Global, version: Version) -> BlockParser
        ensures value { result ≡ at_start version }
        ensures fits { FitsReading result }
    {
        BlockParser {
            version,
            parser: None,
            owed: owes_nothing(alloc),
            kept: AllCerts::new(alloc),
        }
    }

    /// Takes a line of a certificate.
    #[tactic(auto, unfolding(crate::specs::inner::Machine::parser_after_certificate))]
    fn take_certificate(
        &mut self,
        alloc: Global,
        line: &[u8],
        words: &[&[u8]],
    ) -> Result<(), LineError>
        requires names { FewNames self.old.owed.names }
        requires words { cert_line_of_bytes line.now ≡ canonical_cert_line line.now (texts words.now) }
        ensures value { Moves result self.new
            (parser_after_certificate self.old line.now (texts words.now)) }
        ensures parser { OnOk result (self.new.parser ≡ self.old.parser) }
        ensures names { OnOk result (self.new.owed.names ≡ self.old.owed.names) }
    {
        let cert_line = canonical_cert_line(alloc, line, words)?;
        if let Err(error) = take_cert_line(alloc, self.version, &mut self.owed, &cert_line) {
            mem::drop(cert_line);
            return Err(error);
        }
        self.kept.put(alloc, line, cert_line)?;
        Ok(())
    }

    /// Takes any other line: nothing is owed any more.
    #[tactic(auto, unfolding(crate::specs::inner::Machine::parser_after_exact_line))]
    fn take_step(
        &mut self,
        alloc: Global,
        known: &Theorems,
        line: &[u8],
        words: &[&[u8]],
    ) -> Result<(), LineError>
        requires words { texts words.now ≡ tokens_of line.now }
        requires reading { FitsReading self.old }
        requires few { OnSome self.old.parser (length known.now ≤ most_theorems) }
        requires known { IsTrue (list_all is_small_statement (stated_by known.now)) }
        ensures value { Moves result self.new
            (parser_after_exact_line known.now self.old line.now) }
        ensures fits { OnOk result (FitsReading self.new) }
        ensures few { OnOk result (OnSome self.new.parser (length known.now ≤ most_theorems)) }
    {
        let raw_line = canonical_line_of(alloc, line, words)?;
        let taken = self.take_raw_line(alloc, known, &raw_line);
        mem::drop(raw_line);
        taken
    }

    /// Nothing is owed any more, and the theorem goes on with this raw line.
    #[tactic(auto, unfolding(crate::specs::inner::Machine::with_raw_line))]
    fn take_raw_line(
        &mut self,
        alloc: Global,
        known: &Theorems,
        raw_line: &RawLine,
    ) -> Result<(), LineError>
        requires reading { FitsReading self.old }
        requires few { OnSome self.old.parser (length known.now ≤ most_theorems) }
        requires known { IsTrue (list_all is_small_statement (stated_by known.now)) }
        ensures value { Moves result self.new (with_raw_line known.now self.old raw_line.now) }
        ensures fits { OnOk result (FitsReading self.new) }
        ensures few { OnOk result (OnSome self.new.parser (length known.now ≤ most_theorems)) }
    {
        self.finish_line(alloc)?;
        match &mut self.parser {
            None => {
                let parser = first_line(alloc, known, raw_line)?;
                mem::drop(mem::replace(&mut self.parser, Some(parser)));
                Ok(())
            }
            Some(parser) => {
                take_next(alloc, known, parser, &mut self.owed, raw_line)?;
                Ok(())
            }
        }
    }

    /// Nothing is owed any more, and what was read is kept.
    fn finish_line(&mut self, alloc: Global) -> Result<(), LineError>
        requires { FewNames self.old.owed.names }
        ensures value { Moves result self.new (finish_line self.old) }
        ensures parser { OnOk result (self.new.parser ≡ self.old.parser) }
        ensures owed { OnOk result (self.new.owed ≡ owes_nothing) }
    {
        if is_settled(&self.owed) {
            mem::drop(mem::replace(&mut self.owed.names, no_names(alloc)));
            return Ok(());
        }
        let owed = mem::replace(&mut self.owed, owes_nothing(alloc));
        let read = owed.finish_certs()?;
        self.kept.push(read)?;
        Ok(())
    }

    /// Takes a line by its words.
    #[tactic(auto, unfolding(crate::specs::inner::Machine::parser_after_words))]
    fn take_words(
        &mut self,
        alloc: Global,
        known: &Theorems,
        line: &[u8],
        words: &[&[u8]],
    ) -> Result<(), LineError>
        requires words { texts words.now ≡ tokens_of line.now }
        requires reading { FitsReading self.old }
        requires few { OnSome self.old.parser (length known.now ≤ most_theorems) }
        requires known { IsTrue (list_all is_small_statement (stated_by known.now)) }
        ensures value { Moves result self.new
            (parser_after_words known.now self.old line.now (texts words.now)) }
        ensures fits { OnOk result (FitsReading self.new) }
        ensures few { OnOk result (OnSome self.new.parser (length known.now ≤ most_theorems)) }
    {
        match words {
            [] => Err(LineError::MALFORMED),
            [word, rest @ ..] => {
                if is(word, b"|") {
                    return self.take_certificate(alloc, line, rest);
                }
                self.take_step(alloc, known, line, words)
            }
        }
    }

    /// Takes a line by its bytes.
    #[tactic(auto, unfolding(crate::specs::inner::Machine::parser_after_bytes))]
    fn take_bytes(&mut self, alloc: Global, known: &Theorems, line: &[u8]) -> Result<(), LineError>
        requires reading { FitsReading self.old }
        requires few { OnSome self.old.parser (length known.now ≤ most_theorems) }
        requires known { IsTrue (list_all is_small_statement (stated_by known.now)) }
        ensures value { Moves result self.new (parser_after_bytes known.now self.old line.now) }
        ensures fits { OnOk result (FitsReading self.new) }
        ensures few { OnOk result (OnSome self.new.parser (length known.now ≤ most_theorems)) }
    {
        if let Some(cert_line) = self.kept.find(line) {
            return take_cert_line(alloc, self.version, &mut self.owed, cert_line);
        }
        let words = words_of_line(alloc, line)?;
        self.take_words(alloc, known, line, &words)
    }

    /// Takes the next line, which ends with a line feed.
    #[tactic(auto, unfolding(crate::specs::inner::Machine::parser_after_line))]
    pub(crate) fn take(
        &mut self,
        alloc: Global,
        known: &Theorems,
        line: Line<'_>,
    ) -> Result<(), LineError>
        requires reading { FitsReading self.old }
        requires few { OnSome self.old.parser (length known.now ≤ most_theorems) }
        requires known { IsTrue (list_all is_small_statement (stated_by known.now)) }
        ensures value { Moves result self.new
            (parser_after_line known.now self.old (view_of_line line.entry)) }
        ensures fits { OnOk result (FitsReading self.new) }
        ensures few { OnOk result (OnSome self.new.parser (length known.now ≤ most_theorems)) }
    {
        match line.end {
            LineEnd::Lf => self.take_bytes(alloc, known, line.bytes),
            _ => Err(LineError::MALFORMED),
        }
    }

    /// Whether the line is the last one of a text, at the place of a theorem's first line.
    pub(crate) fn is_end(
        &self,
        alloc: Global,
        known: &Theorems,
        line: Line<'_>,
    ) -> Result<bool, AllocError>
        ensures { IfOk result
            (λ b. b ≡ is_end known.now self.now.parser (view_of_line line.entry)) }
    {
        match &self.parser {
            Some(_) => Ok(false),
            None => is_last_line(alloc, known, line),
        }
    }

    /// Whether the theorem has ended.
    pub(crate) fn is_finished(&self) -> bool
        ensures { result ≡ is_finished self.now.parser }
    {
        match &self.parser {
            None => false,
            Some(parser) => matches!(parser.section, Section::Done),
        }
    }

    /// The theorem, once it has ended.
    pub(crate) fn into_theorem(self, alloc: Global) -> Result<Theorem, AllocError>
        requires { IsTrue (is_finished self.parser) }
        ensures { IfOk result (λ t. finished_theorem self.parser self.kept ≡ Some (entry_of t)) }
    {
        let BlockParser {
            version: _,
            parser,
            owed,
            kept,
        } = self;
        mem::drop(owed);
        match parser {
            Some(parser) => theorem_with_certs(alloc, parser, kept),
            None => unreachable!(),
        }
    }
}

/// The last line of a text with this many theorems.
fn last_line_of(alloc: Global, theorems: usize) -> Result<Vec<u8>, AllocError>
    ensures { IfOk result (λ v. v.items ≡ last_line_of theorems) }
{
    let mut line = Vec::new(alloc);
    line.extend_from_slice(b"accepted")?;
    put_number(&mut line, theorems)?;
    Ok(line)
}

/// Whether the line is the last one of a text.
fn is_last_line(alloc: Global, known: &Theorems, line: Line<'_>) -> Result<bool, AllocError>
    ensures { IfOk result (λ b. b ≡ is_last_line known.now (view_of_line line.entry)) }
{
    let last = last_line_of(alloc, known.len())?;
    let is_last = matches!(line.end, LineEnd::Lf) && line.bytes == last.as_slice();
    Ok(is_last)
}

/// A theorem with its certificates at their lines.
fn theorem_with_certs(
    alloc: Global,
    parser: TheoremParser,
    kept: AllCerts,
) -> Result<Theorem, AllocError>
    ensures { IfOk result (λ t. entry_of t ≡ theorem_with_certs parser kept) }
{
    let mut theorem = parser.into_theorem(alloc);
    let mut queue = kept.into_queue();
    match fill(alloc, &theorem.block, &mut queue) {
        Ok(block) => {
            mem::drop(mem::replace(&mut theorem.block, block));
            Ok(theorem)
        }
        Err(error) => {
            mem::drop(theorem);
            Err(error)
        }
    }
}
