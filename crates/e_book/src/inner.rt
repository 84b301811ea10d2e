//! Blocks inside a theorem while its lines come: what begins one, and what closes it.
ghost use Rattle.std.specs.Prelude.{◌≡◌, ◌≤◌, ◌+◌, ◌++◌, ◌∷◌, [], length, IfOk, OnOk, Ok, Err};
ghost use Rattle.e_line.specs.Reading.{Gives, Moves};
ghost use Rattle.e_deriv.specs.Naming.{with_new_names};
ghost use Rattle.e_book.specs.LineLimits.{few_objects, FewNamed};

use crate::blocks::{BlockKind, Closed, OpenBlock};
use crate::limits::{MAX_DEPTH, MAX_FACTS, MAX_STEPS, facts_of, few_objects, monomials, terms_of};
use crate::parser::{Section, TheoremParser};
use crate::steps::{CloseLine, Steps};
use e_construct::Superpose;
use e_deriv::{Names, Step};
use e_line::{FaultKind, LineError, RawLit, RawSuperpose, What, check_literal_limits, within};
use e_literal::{Items, Lit, Sort};
use e_names::{Placement, lit_in, put_lits, put_names, qed_in, scope_of_names, superpose_in};
use e_text::Name;
use std::alloc::{AllocError, Global};
use std::{mem, slice};

/// The names with new ones, each after those of its sort: the limits of objects.
fn names_with(
    alloc: Global,
    names: &Names,
    sorts: &[Sort],
    new: &[Name],
) -> Result<Names, LineError>
    ensures value { Gives (λ n. tt) result (few_objects (with_new_names names.now sorts.now new.now)) }
    ensures names { IfOk result (λ n. n ≡ with_new_names names.now sorts.now new.now) }
    ensures few { IfOk result FewNamed }
{
    let mut after = names.copy(alloc)?;
    if let Err(error) = put_names(&mut after, sorts, new) {
        mem::drop(after);
        return Err(error.into());
    }
    if let Err(error) = few_objects(&after) {
        mem::drop(after);
        return Err(error);
    }
    Ok(after)
}

impl TheoremParser {
    ghost use Rattle.e_deriv.specs.Naming.{with_new_names};
    ghost use Rattle.e_deriv.specs.PlainStep.{plain_step, Claimed, Copied, all_before};
    ghost use Rattle.e_line.specs.Limits.{most_depth, most_facts, most_monomials_of_facts};
    ghost use Rattle.e_line.specs.Limits.{monomials};
    ghost use Rattle.e_book.specs.LineLimits.{few_objects};
    ghost use Rattle.e_book.specs.Steps.{FitsScope, FitsOuter, HasRoom, ClosesInside};
    ghost use Rattle.e_book.specs.Steps.{after_qed, room_inside, terms_inside, inside_block};
    ghost use Rattle.e_book.specs.Steps.{begun_with, begun_terms, after_claim, after_superpose};
    ghost use Rattle.e_book.specs.Steps.{after_copies, after_cases, outer_of, after_inner_block};
    ghost use Rattle.e_book.specs.Steps.{counted_from, parser_after_close, after_close_line};
    ghost use Rattle.e_book.specs.Blocks.{made_in};
    ghost use Rattle.e_book.specs.ParserViews.{script_of_close};

    /// The limits of a line that begins an inner block with this many facts: of steps, of depth and
    /// of facts.
    #[tactic(auto, unfolding(crate::specs::Steps::room_inside))]
    fn room_inside(&self, given: usize) -> Result<(), LineError>
        requires { FitsScope self.now }
        ensures value { Gives (λ u. u) result (room_inside self.now given) }
        ensures room { IfOk result (λ u. HasRoom self.now given) }
    {
        within(self.lines + 1, MAX_STEPS, What::Steps)?;
        within(self.blocks.len() + 2, MAX_DEPTH, What::Depth)?;
        if given > MAX_FACTS - self.facts {
            return Err(LineError::Fault(FaultKind::Limit(What::Facts)));
        }
        Ok(())
    }

    /// The limits of a line that begins an inner block with these facts and has these literals as
    /// they are written: it gives how many monomials are facts in the block.
    #[tactic(auto, unfolding(crate::specs::Steps::terms_inside))]
    fn terms_inside(&self, given: &[Lit], raw: &[RawLit]) -> Result<usize, LineError>
        requires { FitsScope self.now }
        ensures value { Gives (λ n. n) result (terms_inside self.now given.now raw.now) }
        ensures room { IfOk result (λ n. HasRoom self.now (length given.now)) }
    {
        self.room_inside(given.len())?;
        check_literal_limits(raw)?;
        terms_of(self.terms, given)
    }

    /// An inner block begins, with these names in scope and this many facts.
    fn begin_block(
        &mut self,
        alloc: Global,
        kind: BlockKind,
        inside: Names,
        given: usize,
    ) -> Result<(), AllocError>
        requires parser { FitsScope self.old }
        requires room { length self.old.blocks + 2 ≤ most_depth }
        requires given { self.old.facts + given ≤ most_facts }
        requires inside { FewNamed inside }
        requires begun { begun_with kind ≤ given }
        requires terms { self.old.terms + begun_terms kind ≤ most_monomials_of_facts }
        ensures value { OnOk result (self.new ≡ record (inside_block self.old kind given) {
          lines = self.old.lines;
          in_scope = inside;
        }) }
        ensures fits { OnOk result (FitsScope self.new) }
    {
        let outer = OpenBlock {
            steps: mem::replace(&mut self.steps, Steps::new(alloc)),
            in_scope: mem::replace(&mut self.in_scope, inside),
            facts: self.facts,
            terms: self.terms,
            kind,
        };
        self.blocks.push(outer)?;
        self.facts += given;
        Ok(())
    }

    /// An inner block begins, with the names that are in scope and this many facts.
    fn begin_block_here(
        &mut self,
        alloc: Global,
        kind: BlockKind,
        given: usize,
    ) -> Result<(), AllocError>
        requires parser { FitsScope self.old }
        requires room { length self.old.blocks + 2 ≤ most_depth }
        requires given { self.old.facts + given ≤ most_facts }
        requires begun { begun_with kind ≤ given }
        requires terms { self.old.terms + begun_terms kind ≤ most_monomials_of_facts }
        ensures value { OnOk result
            (self.new ≡ record (inside_block self.old kind given) { lines = self.old.lines }) }
        ensures fits { OnOk result (FitsScope self.new) }
    {
        match self.in_scope.copy(alloc) {
            Ok(inside) => self.begin_block(alloc, kind, inside, given),
            Err(error) => {
                mem::drop(kind);
                Err(error)
            }
        }
    }

    /// A claim: its literals, and then the limits.
    pub(crate) fn on_claim(&mut self, alloc: Global, raw: &[RawLit]) -> Result<(), LineError>
        requires { FitsScope self.old }
        ensures value { Moves result self.new (after_claim self.old raw.now) }
        ensures fits { OnOk result (FitsScope self.new) }
    {
        let mut shown = Items::empty(alloc);
        match self.put_claimed(alloc, raw, &mut shown) {
            Ok(()) => {
                self.begin_block_here(alloc, BlockKind::Claim { shown }, 0)?;
                self.lines += 1;
                Ok(())
            }
            Err(error) => {
                mem::drop(shown);
                Err(error)
            }
        }
    }

    /// The literals of a claim, and then the limits of the block that begins with it.
    #[tactic(auto, unfolding(crate::specs::Steps::after_claim, crate::specs::Steps::inside_if_room, crate::specs::Steps::room_inside))]
    fn put_claimed(
        &self,
        alloc: Global,
        raw: &[RawLit],
        shown: &mut Items<Lit>,
    ) -> Result<(), LineError>
        requires parser { FitsScope self.now }
        requires empty { shown.old ≡ [] }
        ensures value { Gives (λ u. inside_block self.now (BlockKind.Claim shown.new) 0) result
            (after_claim self.now raw.now) }
        ensures room { OnOk result (HasRoom self.now 0) }
    {
        put_lits(alloc, &self.in_scope, raw, shown)?;
        self.room_inside(0)?;
        check_literal_limits(raw)?;
        Ok(())
    }

    /// A superposition: its objects, new names and literals, and then the limits.
    #[tactic(auto, unfolding(crate::specs::Steps::after_superpose))]
    pub(crate) fn on_superpose(
        &mut self,
        alloc: Global,
        raw: &RawSuperpose,
    ) -> Result<(), LineError>
        requires { FitsScope self.old }
        ensures value { Moves result self.new (after_superpose self.old raw.now) }
        ensures fits { OnOk result (FitsScope self.new) }
    {
        let names = Items::new(Vec::from_slice(alloc, raw.new.items())?);
        let Placement {
            superposition,
            shown,
        } = superpose_in(alloc, &self.in_scope, raw)?;
        let kind = BlockKind::Superpose {
            superposition,
            names,
            shown,
        };
        let after = match names_with(alloc, &self.in_scope, superposition.made(), raw.new.items()) {
            Ok(after) => after,
            Err(error) => {
                mem::drop(kind);
                return Err(error);
            }
        };
        let given = match superposition.gives(alloc, scope_of_names(&self.in_scope)) {
            Ok(given) => given,
            Err(error) => {
                mem::drop(kind);
                mem::drop(after);
                return Err(error.into());
            }
        };
        let begun = self.begin_copies(alloc, kind, after, &given, raw.shown.items());
        mem::drop(given);
        begun
    }

    /// The block of a superposition begins with these names and facts: the limits of steps, of
    /// depth and of facts, those of the literals that it shows, and that of monomials.
    #[tactic(auto, using(crate::proofs::grammar::BlockBegins::begun_with_copies, crate::proofs::grammar::BlockBegins::few_inside))]
    fn begin_copies(
        &mut self,
        alloc: Global,
        kind: BlockKind,
        after: Names,
        given: &[Lit],
        shown: &[RawLit],
    ) -> Result<(), LineError>
        requires parser { FitsScope self.old }
        requires after { FewNamed after }
        requires begun { begun_with kind ≡ 0 }
        requires terms { begun_terms kind ≡ 0 }
        ensures value { Moves result self.new
            (after_copies self.old kind after given.now shown.now) }
        ensures fits { OnOk result (FitsScope self.new) }
    {
        let terms = match self.terms_inside(given, shown) {
            Ok(terms) => terms,
            Err(error) => {
                mem::drop(kind);
                mem::drop(after);
                return Err(error);
            }
        };
        self.begin_block(alloc, kind, after, given.len())?;
        self.lines += 1;
        self.terms = terms;
        Ok(())
    }

    /// A split: its literal, and then the limits.
    #[tactic(auto, using(crate::proofs::grammar::BlockBegins::begun_with_lit, crate::proofs::grammar::BlockBegins::few_inside, crate::proofs::grammar::BlockBegins::split_few))]
    pub(crate) fn on_cases(&mut self, alloc: Global, raw: &RawLit) -> Result<(), LineError>
        requires { FitsScope self.old }
        ensures value { Moves result self.new (after_cases self.old raw.now) }
        ensures fits { OnOk result (FitsScope self.new) }
    {
        let lit = lit_in(alloc, &self.in_scope, raw)?;
        match self.terms_inside(slice::from_ref(&lit), slice::from_ref(raw)) {
            Ok(terms) => {
                self.begin_block_here(alloc, BlockKind::First { lit }, 1)?;
                self.lines += 1;
                self.terms = terms;
                Ok(())
            }
            Err(error) => {
                mem::drop(lit);
                Err(error)
            }
        }
    }

    /// The close by `qed`: its objects, and then the limit of steps.
    pub(crate) fn on_qed(&mut self, alloc: Global, names: &[Name]) -> Result<(), LineError>
        requires { FitsScope self.old }
        ensures value { Moves result self.new (after_qed self.old names.now) }
        ensures fits { OnOk result (FitsScope self.new) }
    {
        let objects = qed_in(alloc, &self.in_scope, self.goal_made(), names)?;
        self.on_close(alloc, CloseLine::Qed(objects))
    }

    /// The made objects of the goal of the block that is open.
    fn goal_made(&self) -> &[Sort]
        ensures { result.now ≡ made_in self.now.blocks self.now.made }
    {
        if self.blocks.has_claim() {
            return &[];
        }
        self.made.items()
    }

    /// A close line: the limit of steps, and what it closes.
    #[tactic(auto, unfolding(crate::specs::Steps::after_close_line))]
    pub(crate) fn on_close(&mut self, alloc: Global, close: CloseLine) -> Result<(), LineError>
        requires { FitsScope self.old }
        ensures value { Moves result self.new (after_close_line self.old close) }
        ensures fits { OnOk result (FitsScope self.new) }
    {
        if let Err(error) = within(self.lines + 1, MAX_STEPS, What::Steps) {
            mem::drop(close);
            return Err(error);
        }
        self.lines += 1;
        self.close_block(alloc, close)
    }

    /// The open block is closed, and with the second block of a split the block around it too.
    #[tactic(auto, unfolding(crate::specs::Steps::parser_after_close))]
    fn close_block(&mut self, alloc: Global, close: CloseLine) -> Result<(), LineError>
        requires { FitsScope self.old }
        ensures value { Moves result self.new
            (parser_after_close self.old self.old.blocks self.old.steps close) }
        ensures fits { OnOk result (FitsScope self.new) }
    {
        let Some(outer) = self.blocks.pop() else {
            mem::drop(mem::replace(&mut self.close, close));
            self.section = Section::Closed;
            return Ok(());
        };
        match self.close_inside(alloc, outer, close)? {
            None => Ok(()),
            Some(next) => self.close_block(alloc, next),
        }
    }

    /// The open block is closed inside the one around it. After the second block of a split the
    /// answer is the split, which closes the block around too.
    #[tactic(auto, using(crate::proofs::grammar::Interrupted::goes_on))]
    fn close_inside(
        &mut self,
        alloc: Global,
        outer: OpenBlock,
        close: CloseLine,
    ) -> Result<Option<CloseLine>, LineError>
        requires parser { FitsScope self.old }
        requires room { length self.old.blocks + 2 ≤ most_depth }
        requires outer { FitsOuter outer }
        ensures value { ClosesInside self.old outer close result self.new }
        ensures fits { OnOk result (FitsScope self.new) }
    {
        let inner = match self.take_block(alloc, close) {
            Ok(inner) => inner,
            Err(error) => {
                mem::drop(outer);
                return Err(error.into());
            }
        };
        let OpenBlock {
            steps,
            in_scope,
            facts,
            terms,
            kind,
        } = outer;
        mem::drop(mem::replace(&mut self.steps, steps));
        match kind {
            BlockKind::Claim { shown } => {
                self.put_back(in_scope, facts, terms);
                self.end_claim(shown, inner)?;
                Ok(None)
            }
            BlockKind::Superpose {
                superposition,
                names,
                shown,
            } => {
                self.put_back(in_scope, facts, terms);
                self.end_superposition(alloc, superposition, names, shown, inner)?;
                Ok(None)
            }
            BlockKind::First { lit } => {
                self.put_back(in_scope, facts, terms);
                self.begin_second(alloc, lit, inner)?;
                Ok(None)
            }
            BlockKind::Second { lit, first } => {
                mem::drop(in_scope);
                Ok(Some(CloseLine::Cases {
                    lit,
                    first,
                    second: inner,
                }))
            }
        }
    }

    /// Takes the open block out, closed.
    fn take_block(&mut self, alloc: Global, close: CloseLine) -> Result<Closed, AllocError>
        ensures closed { IfOk result (λ c. c ≡ all_before self.old.steps (script_of_close close)) }
        ensures taken { OnOk result (self.new ≡ record self.old { steps = [] }) }
    {
        let steps = mem::replace(&mut self.steps, Steps::new(alloc));
        Closed::new(alloc, steps.into_block(alloc, close))
    }

    /// The names in scope and the counts of the block around one that is closed.
    fn put_back(&mut self, in_scope: Names, facts: usize, terms: usize)
        ensures { self.new ≡
            record self.old { in_scope = in_scope; facts = facts; terms = terms } }
    {
        mem::drop(mem::replace(&mut self.in_scope, in_scope));
        self.facts = facts;
        self.terms = terms;
    }

    /// The literals that a block shows are facts too: the limits of facts and of monomials.
    #[tactic(auto, unfolding(crate::specs::Steps::counted_from))]
    fn add_shown(&mut self, shown: &[Lit]) -> Result<(), LineError>
        requires { FitsScope self.old }
        ensures value { Moves result self.new
            (counted_from self.old self.old.facts self.old.terms shown.now) }
        ensures fits { OnOk result (FitsScope self.new) }
    {
        self.facts = facts_of(self.facts, shown)?;
        self.terms = terms_of(self.terms, shown)?;
        Ok(())
    }

    /// The block of a claim is closed: the limits of facts and of monomials, and the claim is a
    /// step of the block around.
    #[tactic(auto, using(e_deriv::proofs::Scripts::plain_steps, crate::proofs::grammar::Interrupted::with_shown))]
    fn end_claim(&mut self, shown: Items<Lit>, inner: Closed) -> Result<(), LineError>
        requires { FitsScope self.old }
        ensures value { Moves result self.new (after_inner_block self.old
            (outer_of self.old (BlockKind.Claim shown)) self.old.blocks shown
            (Claimed shown inner)) }
        ensures fits { OnOk result (FitsScope self.new) }
    {
        if let Err(error) = self.add_shown(shown.items()) {
            mem::drop(shown);
            mem::drop(inner);
            return Err(error);
        }
        let inner = inner.into_box();
        self.steps.push(Step::Claim { shown, inner })?;
        Ok(())
    }

    /// The block of a superposition is closed: the limits of facts and of monomials, and the
    /// superposition is a step of the block around.
    #[tactic(auto, using(e_deriv::proofs::Scripts::plain_steps, crate::proofs::grammar::Interrupted::with_shown))]
    fn end_superposition(
        &mut self,
        alloc: Global,
        superposition: Superpose,
        names: Items<Name>,
        shown: Items<Lit>,
        inner: Closed,
    ) -> Result<(), LineError>
        requires { FitsScope self.old }
        ensures value { Moves result self.new (after_inner_block self.old
            (outer_of self.old (BlockKind.Superpose superposition names shown)) self.old.blocks
            shown (Copied superposition names shown [] inner)) }
        ensures fits { OnOk result (FitsScope self.new) }
    {
        if let Err(error) = self.add_shown(shown.items()) {
            mem::drop(names);
            mem::drop(shown);
            mem::drop(inner);
            return Err(error);
        }
        let inner = inner.into_box();
        self.steps.push(Step::Superposed {
            superposition,
            names,
            shown,
            certs: Items::empty(alloc),
            inner,
        })?;
        Ok(())
    }

    /// The first block of a split is closed. After `else` comes the other one, which begins with as
    /// many literals.
    fn begin_second(&mut self, alloc: Global, lit: Lit, first: Closed) -> Result<(), AllocError>
        requires parser { FitsScope self.old }
        requires room { length self.old.blocks + 2 ≤ most_depth }
        requires outer { FitsOuter (outer_of self.old (BlockKind.First lit)) }
        ensures value { OnOk result (self.new ≡
            record (inside_block self.old (BlockKind.Second lit first) 1) {
              lines = self.old.lines;
              terms = self.old.terms + monomials lit.atom;
              section = Section.Splitting;
            }) }
        ensures fits { OnOk result (FitsScope self.new) }
    {
        let terms = self.terms + monomials(&lit);
        self.begin_block_here(alloc, BlockKind::Second { lit, first }, 1)?;
        self.terms = terms;
        self.section = Section::Splitting;
        Ok(())
    }
}
