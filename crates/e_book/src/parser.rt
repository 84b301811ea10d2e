//! A theorem while its lines come.
ghost use Rattle.std.specs.Prelude.{◌≡◌, ◌≤◌, ◌<◌, ◌+◌, ◌^◌, ◌++◌, length};
ghost use Rattle.std.specs.Prelude.{replicate, IfOk, OnOk, Ok, Err};
ghost use Rattle.e_line.specs.Reading.{Gives, Moves};
ghost use Rattle.e_construct.specs.Construct.{gives_of_construction};
ghost use Rattle.e_names.specs.Scope.{names_of_sort, with_names};
ghost use Rattle.e_deriv.specs.Naming.{with_new_names};
ghost use Rattle.e_book.specs.LineLimits.{few_objects, FewNamed};
ghost use Rattle.e_book.specs.Steps.{line_may_come, with_declared, no_names, count_names};

use crate::blocks::BlockStack;
use crate::limits::{
    MAX_BLANKS, MAX_FACTS, MAX_STEPS, MAX_THEOREMS, few_objects, most_of, terms_of, terms_with,
    what_of,
};
use crate::steps::{CloseLine, Steps};
use crate::theorem::Theorem;
use e_construct::Construction;
use e_deriv::{Names, Step};
use e_line::{
    FaultKind, LineError, RawApply, RawLet, RawLine, RawLit, What, check_literal_limits, within,
};
use e_literal::{Items, Lit, NOTHING, Scope, Sort, with_sorts};
use e_names::{
    Application, Theorems, apply_in, by_in, count_blanks, fresh, let_in, lit_in, put_lits,
    put_names, scope_of_names,
};
use e_text::{Name, Title};
use e_theorem::Statement;
use std::alloc::{AllocError, Global};
use std::{mem, slice};

/// Which lines may come.
#[derive(Clone, Copy, PartialEq, Eq)]
pub enum Section {
    Declaring,
    Giving,
    Making,
    Showing,
    Proving,
    /// After the first block of a split, a close by `cases`: `else` comes.
    Splitting,
    /// After the proof: `end` comes.
    Closed,
    /// After `end`.
    Done,
}

/// What has come of the lines of a theorem.
#[derive(Drop)]
pub struct TheoremParser {
    pub title: Title,
    /// The names of the statement's objects: of the declared ones and, after them, of the made
    /// ones.
    pub names: Names,
    /// The names of the objects in scope in the block that is open, once the proof has begun.
    pub in_scope: Names,
    pub declared: Items<Sort>,
    pub given: Items<Lit>,
    pub made: Items<Sort>,
    pub shown: Items<Lit>,
    /// The steps so far of the block that is open.
    pub steps: Steps,
    /// How many step and close lines have come.
    pub lines: usize,
    /// How many literals are facts, repeats counted.
    pub facts: usize,
    /// How many monomials they have.
    pub terms: usize,
    /// The blocks around the one that is open.
    pub blocks: BlockStack,
    /// How the proof's block is closed; before that a `qed` without objects.
    pub close: CloseLine,
    pub section: Section,
}

/// Whether a line may come in this section.
pub(crate) fn line_may_come(section: Section, raw_line: &RawLine) -> bool
    ensures { result ≡ line_may_come section raw_line.now }
{
    match raw_line {
        RawLine::Theorem(_) => false,
        RawLine::Declare(_, _) => matches!(section, Section::Declaring),
        RawLine::Given(_) => matches!(section, Section::Declaring | Section::Giving),
        RawLine::Made(_, _) => matches!(
            section,
            Section::Declaring | Section::Giving | Section::Making
        ),
        RawLine::Show(_) => matches!(
            section,
            Section::Declaring | Section::Giving | Section::Making | Section::Showing
        ),
        RawLine::Proof => matches!(section, Section::Showing),
        RawLine::By(..) => matches!(section, Section::Proving),
        RawLine::Hence(_) => matches!(section, Section::Proving),
        RawLine::Let(_) => matches!(section, Section::Proving),
        RawLine::Apply(_) => matches!(section, Section::Proving),
        RawLine::Qed(_) => matches!(section, Section::Proving),
        RawLine::Contradiction => matches!(section, Section::Proving),
        RawLine::Claim(_) => matches!(section, Section::Proving),
        RawLine::Superpose(_) => matches!(section, Section::Proving),
        RawLine::Cases(_) => matches!(section, Section::Proving),
        RawLine::Else => matches!(section, Section::Splitting),
        RawLine::End => matches!(section, Section::Closed),
    }
}

/// No names of any sort.
pub fn no_names(alloc: Global) -> Names
    ensures { result ≡ no_names }
{
    Names {
        points: Items::empty(alloc),
        lines: Items::empty(alloc),
        circles: Items::empty(alloc),
    }
}

/// Names put after those of their sort.
fn append_names(names: &mut Names, sort: Sort, new: &[Name]) -> Result<(), AllocError>
    ensures count { OnOk result (count_names names.new ≡ count_names names.old + length new.now) }
    ensures value { OnOk result
        (names.new ≡ with_names names.old sort (names_of_sort names.old sort ++ new.now)) }
{
    match sort {
        Sort::Point => names.points.append(new),
        Sort::Line => names.lines.append(new),
        Sort::Circle => names.circles.append(new),
    }
}

/// New objects of a sort: names that are free, and the limit of the sort.
#[tactic(auto, unfolding(crate::specs::Steps::with_declared))]
pub fn declare(names: &mut Names, sort: Sort, new: &[Name]) -> Result<(), LineError>
    requires { FewNamed names.old }
    ensures count { OnOk result (count_names names.new ≡ count_names names.old + length new.now) }
    ensures value { Moves result names.new (with_declared names.old sort new.now) }
    ensures fits { OnOk result (FewNamed names.new) }
{
    fresh(names, new)?;
    if new.len() > most_of(sort) - names.of_sort(sort).len() {
        return Err(LineError::Fault(FaultKind::Limit(what_of(sort))));
    }
    append_names(names, sort, new)?;
    Ok(())
}

/// A sort, once for each of this many objects.
fn copies_of_sort(alloc: Global, sort: Sort, count: usize) -> Result<Items<Sort>, AllocError>
    ensures { IfOk result (λ s. s ≡ replicate count sort) }
{
    Ok(Items::new(Vec::from_elem(alloc, sort, count)?))
}

/// How many literals a construction gives.
fn count_given(
    alloc: Global,
    construction: &Construction,
    scope: Scope,
) -> Result<usize, AllocError>
    requires points { scope.points + 2 < 2 ^ 16 }
    requires lines { scope.lines + 2 < 2 ^ 16 }
    requires circles { scope.circles + 2 < 2 ^ 16 }
    ensures { IfOk result (λ n. n ≡ length (gives_of_construction construction.now scope)) }
{
    let given = construction.gives(alloc, scope)?;
    Ok(given.len())
}

impl TheoremParser {
    ghost use Rattle.e_deriv.specs.Naming.{with_new_names};
    ghost use Rattle.e_deriv.specs.PlainStep.{plain_step};
    ghost use Rattle.e_theorem.specs.Statements.{as_view};
    ghost use Rattle.e_line.specs.Limits.{most_theorems};
    ghost use Rattle.e_book.specs.LineLimits.{few_objects};
    ghost use Rattle.e_book.specs.Steps.{FitsScope, begin, with_title, step, after_line};
    ghost use Rattle.e_book.specs.Steps.{after_declare, after_given, after_made, after_show};
    ghost use Rattle.e_book.specs.Steps.{after_proof, after_by, after_hence, with_step};
    ghost use Rattle.e_book.specs.Steps.{with_terms, after_let, with_use, after_apply};
    ghost use Rattle.e_book.specs.ParserViews.{entry_of_parser};
    ghost use Rattle.e_book.specs.TheoremViews.{entry_of};
    ghost use Rattle.e_book.specs.inner.Machine.{names_there};

    /// A theorem begun by its first line.
    #[tactic(auto, unfolding(crate::specs::Steps::begin))]
    pub fn begin(
        alloc: Global,
        known: &Theorems,
        raw_line: &RawLine,
    ) -> Result<TheoremParser, LineError>
        ensures value { Gives (λ d. d) result (begin known.now raw_line.now) }
        ensures fits { IfOk result FitsScope }
        ensures few { OnOk result (length known.now ≤ most_theorems) }
    {
        let RawLine::Theorem(title) = raw_line else {
            return Err(LineError::Fault(FaultKind::Malformed));
        };
        if known.is_known(*title) {
            return Err(LineError::Fault(FaultKind::NameTaken));
        }
        if known.len() >= MAX_THEOREMS {
            return Err(LineError::Fault(FaultKind::Limit(What::Theorems)));
        }
        Ok(TheoremParser::with_title(alloc, *title))
    }

    /// A theorem or a definition of which only the title has come.
    pub(crate) fn with_title(alloc: Global, title: Title) -> TheoremParser
        ensures value { result ≡ with_title title }
        ensures fits { FitsScope result }
    {
        TheoremParser {
            title,
            names: no_names(alloc),
            in_scope: no_names(alloc),
            declared: Items::empty(alloc),
            given: Items::empty(alloc),
            made: Items::empty(alloc),
            shown: Items::empty(alloc),
            steps: Steps::new(alloc),
            lines: 0,
            facts: 0,
            terms: 0,
            blocks: BlockStack::new(alloc),
            close: CloseLine::Qed(Items::empty(alloc)),
            section: Section::Declaring,
        }
    }

    /// The names of the objects that the next line may name.
    pub(crate) fn names_there(&self) -> &Names
        ensures { result.now ≡ names_there self.now }
    {
        match self.section {
            Section::Proving => &self.in_scope,
            _ => &self.names,
        }
    }

    /// Takes the next line: its form at this place, its names from left to right, then the limits.
    /// After a fault it is not used again.
    #[tactic(auto, unfolding(crate::specs::Steps::step, crate::specs::Steps::after_line))]
    pub fn take(
        &mut self,
        alloc: Global,
        known: &Theorems,
        raw_line: &RawLine,
    ) -> Result<(), LineError>
        requires parser { FitsScope self.old }
        requires known { length known.now ≤ most_theorems }
        ensures value { Moves result self.new (step known.now self.old raw_line.now) }
        ensures fits { OnOk result (FitsScope self.new) }
    {
        if !line_may_come(self.section, raw_line) {
            return Err(LineError::Fault(FaultKind::Malformed));
        }
        match raw_line {
            RawLine::Theorem(_) => Err(LineError::Fault(FaultKind::Malformed)),
            RawLine::Declare(sort, names) => self.on_declare(alloc, *sort, names.items()),
            RawLine::Given(raw) => self.on_given(alloc, raw.items()),
            RawLine::Made(sort, names) => self.on_made(alloc, *sort, names.items()),
            RawLine::Show(raw) => self.on_show(alloc, raw.items()),
            RawLine::Proof => self.on_proof(alloc),
            RawLine::By(rule, args, lit) => self.on_by(alloc, *rule, args.items(), lit),
            RawLine::Hence(raw) => self.on_hence(alloc, raw),
            RawLine::Let(raw) => self.on_let(alloc, raw),
            RawLine::Apply(raw) => self.on_apply(alloc, known, raw),
            RawLine::Qed(names) => self.on_qed(alloc, names.items()),
            RawLine::Contradiction => self.on_close(alloc, CloseLine::Contradiction),
            RawLine::Claim(raw) => self.on_claim(alloc, raw.items()),
            RawLine::Superpose(raw) => self.on_superpose(alloc, raw),
            RawLine::Cases(raw) => self.on_cases(alloc, raw),
            RawLine::Else => {
                self.section = Section::Proving;
                Ok(())
            }
            RawLine::End => {
                self.section = Section::Done;
                Ok(())
            }
        }
    }

    /// Declared objects.
    pub(crate) fn on_declare(
        &mut self,
        alloc: Global,
        sort: Sort,
        names: &[Name],
    ) -> Result<(), LineError>
        requires { FitsScope self.old }
        ensures value { Moves result self.new (after_declare self.old sort names.now) }
        ensures fits { OnOk result (FitsScope self.new) }
    {
        declare(&mut self.names, sort, names)?;
        let sorts = copies_of_sort(alloc, sort, names.len())?;
        self.declared.append(sorts.items())?;
        Ok(())
    }

    /// Made objects.
    fn on_made(&mut self, alloc: Global, sort: Sort, names: &[Name]) -> Result<(), LineError>
        requires { FitsScope self.old }
        ensures value { Moves result self.new (after_made self.old sort names.now) }
        ensures fits { OnOk result (FitsScope self.new) }
    {
        declare(&mut self.names, sort, names)?;
        let sorts = copies_of_sort(alloc, sort, names.len())?;
        self.made.append(sorts.items())?;
        self.section = Section::Making;
        Ok(())
    }

    /// Shown literals: their names, and then the limits of each.
    pub(crate) fn on_show(&mut self, alloc: Global, raw: &[RawLit]) -> Result<(), LineError>
        requires { FitsScope self.old }
        ensures value { Moves result self.new (after_show self.old raw.now) }
        ensures fits { OnOk result (FitsScope self.new) }
    {
        put_lits(alloc, &self.names, raw, &mut self.shown)?;
        check_literal_limits(raw)?;
        self.section = Section::Showing;
        Ok(())
    }

    /// The proof begins with the declared objects.
    fn on_proof(&mut self, alloc: Global) -> Result<(), LineError>
        requires { FitsScope self.old }
        ensures value { Moves result self.new (after_proof self.old) }
        ensures fits { OnOk result (FitsScope self.new) }
    {
        let scope = with_sorts(NOTHING, self.declared.items());
        let first = self.names.first(alloc, scope)?;
        mem::drop(mem::replace(&mut self.in_scope, first));
        self.section = Section::Proving;
        Ok(())
    }

    /// Given literals: their names, and then the limits of facts and of monomials.
    fn on_given(&mut self, alloc: Global, raw: &[RawLit]) -> Result<(), LineError>
        requires { FitsScope self.old }
        ensures value { Moves result self.new (after_given self.old raw.now) }
        ensures fits { OnOk result (FitsScope self.new) }
    {
        put_lits(alloc, &self.names, raw, &mut self.given)?;
        if raw.len() > MAX_FACTS - self.facts {
            return Err(LineError::Fault(FaultKind::Limit(What::Facts)));
        }
        self.facts += raw.len();
        self.section = Section::Giving;
        self.add_terms(raw)
    }

    /// A `hence`, whose literal is to be allowed: its names, and then the limits.
    #[tactic(auto, unfolding(e_deriv::specs::PlainStep::plain_step))]
    fn on_hence(&mut self, alloc: Global, raw: &RawLit) -> Result<(), LineError>
        requires { FitsScope self.old }
        ensures value { Moves result self.new (after_hence self.old raw.now) }
        ensures fits { OnOk result (FitsScope self.new) }
    {
        let lit = lit_in(alloc, &self.in_scope, raw)?;
        self.add_step(Step::Hence { lit, cert: None }, 1)?;
        self.add_terms(slice::from_ref(raw))
    }

    /// A citation: its rule, names and literal, and then the limits.
    fn on_by(
        &mut self,
        alloc: Global,
        rule: Title,
        args: &[Name],
        lit: &RawLit,
    ) -> Result<(), LineError>
        requires { FitsScope self.old }
        ensures value { Moves result self.new (after_by self.old rule args.now lit.now) }
        ensures fits { OnOk result (FitsScope self.new) }
    {
        let by = by_in(alloc, &self.in_scope, rule, args, lit)?;
        self.add_step(Step::Cite(by), 1)
    }

    /// A construction: its names, and then the limits of objects, of steps and of facts. Its new
    /// objects are in scope after it.
    #[tactic(auto, unfolding(crate::specs::Steps::after_let, e_deriv::specs::PlainStep::plain_step))]
    fn on_let(&mut self, alloc: Global, raw: &RawLet) -> Result<(), LineError>
        requires { FitsScope self.old }
        ensures value { Moves result self.new (after_let self.old raw.now) }
        ensures fits { OnOk result (FitsScope self.new) }
    {
        let construction = let_in(alloc, &self.in_scope, raw)?;
        let given = match count_given(alloc, &construction, scope_of_names(&self.in_scope)) {
            Ok(given) => given,
            Err(error) => {
                mem::drop(construction);
                return Err(error.into());
            }
        };
        match self.bring_in(alloc, construction.made(), raw.new.items()) {
            Ok(names) => {
                let certs = Items::empty(alloc);
                self.add_step(
                    Step::Make {
                        construction,
                        names,
                        certs,
                    },
                    given,
                )
            }
            Err(error) => {
                mem::drop(construction);
                Err(error)
            }
        }
    }

    /// New names come into scope, each after those of its sort: the limits of objects. It gives a
    /// copy of the names.
    fn bring_in(
        &mut self,
        alloc: Global,
        sorts: &[Sort],
        new: &[Name],
    ) -> Result<Items<Name>, LineError>
        ensures value { Gives (λ n. tt) result
            (few_objects (with_new_names self.old.in_scope sorts.now new.now)) }
        ensures names { IfOk result (λ n. n ≡ new.now) }
        ensures scope { OnOk result
            (self.new ≡ record self.old { in_scope = with_new_names self.old.in_scope sorts.now new.now }) }
        ensures few { OnOk result (FewNamed (with_new_names self.old.in_scope sorts.now new.now)) }
    {
        put_names(&mut self.in_scope, sorts, new)?;
        few_objects(&self.in_scope)?;
        let names = Vec::from_slice(alloc, new)?;
        Ok(Items::new(names))
    }

    /// The use of an earlier theorem: its title and the names, and then the limits.
    #[tactic(auto, unfolding(crate::specs::Steps::after_apply))]
    fn on_apply(&mut self, alloc: Global, known: &Theorems, raw: &RawApply) -> Result<(), LineError>
        requires parser { FitsScope self.old }
        requires known { length known.now ≤ most_theorems }
        ensures value { Moves result self.new (after_apply known.now self.old raw.now) }
        ensures fits { OnOk result (FitsScope self.new) }
    {
        let application = apply_in(alloc, known, &self.in_scope, raw)?;
        let statement = known.statement(application.theorem as usize);
        self.use_theorem(alloc, statement, application, raw.new.items())
    }

    /// A theorem is used: the limits of objects, of steps, of facts, of monomials and of blanks.
    /// What it shows are facts, and its made objects are in scope after the line.
    #[tactic(auto, unfolding(crate::specs::Steps::with_use, e_deriv::specs::PlainStep::plain_step))]
    fn use_theorem(
        &mut self,
        alloc: Global,
        statement: &Statement,
        application: Application,
        new: &[Name],
    ) -> Result<(), LineError>
        requires { FitsScope self.old }
        ensures value { Moves result self.new (with_use self.old
            (as_view statement.now) application.theorem application.args new.now) }
        ensures fits { OnOk result (FitsScope self.new) }
    {
        let names = match self.bring_in(alloc, statement.made.items(), new) {
            Ok(names) => names,
            Err(error) => {
                mem::drop(application);
                return Err(error);
            }
        };
        let Application { theorem, args } = application;
        let blanks = count_blanks(args.items());
        let step = Step::Apply {
            theorem,
            args,
            names,
            certs: Items::empty(alloc),
        };
        self.add_step(step, statement.shown.len())?;
        self.terms = terms_of(self.terms, statement.shown.items())?;
        within(blanks, MAX_BLANKS, What::Blanks)
    }

    /// A step that gives this many facts: the limit of steps, and then that of facts.
    #[tactic(auto, unfolding(crate::specs::Steps::with_step))]
    fn add_step(&mut self, step: Step, given: usize) -> Result<(), LineError>
        requires { FitsScope self.old }
        ensures value { Moves result self.new (with_step self.old (plain_step step) given) }
        ensures fits { OnOk result (FitsScope self.new) }
    {
        if let Err(error) = within(self.lines + 1, MAX_STEPS, What::Steps) {
            mem::drop(step);
            return Err(error);
        }
        if given > MAX_FACTS - self.facts {
            mem::drop(step);
            return Err(LineError::Fault(FaultKind::Limit(What::Facts)));
        }
        self.steps.push(step)?;
        self.lines += 1;
        self.facts += given;
        Ok(())
    }

    /// The monomials of literals that become facts: the limits of each literal, and then that of
    /// all.
    #[tactic(auto, unfolding(crate::specs::Steps::with_terms))]
    fn add_terms(&mut self, raw: &[RawLit]) -> Result<(), LineError>
        requires { FitsScope self.old }
        ensures value { Moves result self.new (with_terms self.old raw.now) }
        ensures fits { OnOk result (FitsScope self.new) }
    {
        check_literal_limits(raw)?;
        self.terms = terms_with(self.terms, raw)?;
        Ok(())
    }

    /// The theorem that the lines make.
    pub fn into_theorem(self, alloc: Global) -> Theorem
        ensures { entry_of result ≡ entry_of_parser self }
    {
        let TheoremParser {
            title,
            names,
            declared,
            given,
            made,
            shown,
            steps,
            close,
            in_scope,
            blocks,
            ..
        } = self;
        mem::drop(in_scope);
        mem::drop(blocks);
        Theorem {
            title,
            names,
            statement: Statement {
                declared,
                given,
                made,
                shown,
            },
            block: steps.into_block(alloc, close),
        }
    }
}
