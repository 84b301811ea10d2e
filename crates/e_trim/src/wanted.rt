//! What is wanted after a step: literals that are looked up, and objects that are needed.

ghost use Rattle.std.specs.Prelude.{◌≡◌, [], ◌∷◌, ◌++◌, OnOk, IfOk};
ghost use Rattle.e_literal.specs.Facts.{has};
ghost use Rattle.e_literal.specs.declared.object.Sort.TheVariants.{Point as PointSort};
ghost use Rattle.e_literal.specs.declared.object.Sort.TheVariants.{Line as LineSort};
ghost use Rattle.e_literal.specs.declared.object.Sort.TheVariants.{Circle as CircleSort};
ghost use Rattle.e_literal.specs.Literal.{obj, objects_of_atom, objects_of_sum, objects_of_term};
ghost use Rattle.e_trim.specs.Looked.{no_wants, both, wanted_lits};
ghost use Rattle.e_trim.specs.Looked.{wanted_objects, of_lit, objects_of_lits};
ghost use Rattle.e_trim.specs.Trimmed.{wants_outside, is_needed};

use crate::step_state::StepState;
use e_literal::{Atom, Lit, Mono, Obj, Sort, Term, copy, count, is_same_object, same};
use std::alloc::{AllocError, Global};
use std::marker::Model;
use std::mem;

/// Literals that are looked up, and objects that are needed.
#[derive(Drop)]
pub struct Wanted {
    lits: Vec<Lit>,
    objects: Vec<Obj>,
}

impl Model for Wanted {
    ghost use Rattle.e_trim.specs.Looked.{Wants};

    ghost Value = { Wants };

    ghost view = { λ w. record { lits = w.lits.items; objects = w.objects.items } };
}

/// The point with this number.
pub fn point(number: u16) -> Obj
    ensures { result ≡ obj PointSort number }
{
    Obj {
        sort: Sort::Point,
        num: number,
    }
}

/// The line with this number.
pub fn line(number: u16) -> Obj
    ensures { result ≡ obj LineSort number }
{
    Obj {
        sort: Sort::Line,
        num: number,
    }
}

fn circle(number: u16) -> Obj
    ensures { result ≡ obj CircleSort number }
{
    Obj {
        sort: Sort::Circle,
        num: number,
    }
}

impl Wanted {
    /// Nothing is wanted.
    pub fn new(alloc: Global) -> Wanted
        ensures { result ≡ no_wants }
    {
        Wanted {
            lits: Vec::new(alloc),
            objects: Vec::new(alloc),
        }
    }

    /// The objects are needed.
    #[tactic(auto, using(crate::proofs::walks::Both::joining))]
    pub fn need_all(&mut self, objects: &[Obj]) -> Result<(), AllocError>
        ensures { OnOk result (self.new ≡ both self.old (wanted_objects objects.now)) }
    {
        self.objects.extend_from_slice(objects)
    }

    /// The object is needed.
    pub fn need_one(&mut self, object: Obj) -> Result<(), AllocError>
        ensures { OnOk result (self.new ≡ both self.old (wanted_objects (object ∷ []))) }
    {
        self.need_all(&[object])
    }

    /// The points of the term are needed.
    pub fn need_term(&mut self, term: Term) -> Result<(), AllocError>
        ensures { OnOk result (self.new ≡ both self.old (wanted_objects (objects_of_term term))) }
    {
        match term {
            Term::Seg(a, b) => self.need_all(&[point(a), point(b)]),
            Term::Ang(a, b, c) | Term::Area(a, b, c) => self.need_all(&[
                point(a),
                point(b),
                point(c),
            ]),
            Term::Right => self.need_all(&[]),
        }
    }

    /// The points of a sum are needed.
    #[tactic(auto, using(crate::proofs::walks::Both::joining))]
    fn need_sum(&mut self, sum: &[Mono]) -> Result<(), AllocError>
        ensures { OnOk result (self.new ≡ both self.old (wanted_objects (objects_of_sum sum.now))) }
    {
        for m in sum {
            self.need_term(m.term)?;
        }
        Ok(())
    }

    /// The points of two sums are needed.
    #[tactic(auto, using(crate::proofs::walks::Both::joining))]
    fn need_sums(&mut self, left: &[Mono], right: &[Mono]) -> Result<(), AllocError>
        ensures { OnOk result (self.new ≡ both self.old
            (wanted_objects (objects_of_sum left.now ++ objects_of_sum right.now))) }
    {
        self.need_sum(left)?;
        self.need_sum(right)
    }

    /// The objects of the literal are needed.
    pub fn need_objects_of(&mut self, lit: &Lit) -> Result<(), AllocError>
        ensures { OnOk result
            (self.new ≡ both self.old (wanted_objects (objects_of_atom lit.now.atom))) }
    {
        match &lit.atom {
            Atom::On(a, l) => self.need_all(&[point(*a), line(*l)]),
            Atom::OnC(a, c) | Atom::Inside(a, c) | Atom::Center(a, c) => {
                self.need_all(&[point(*a), circle(*c)])
            }
            Atom::Between(a, b, c) => self.need_all(&[point(*a), point(*b), point(*c)]),
            Atom::Same(a, b, l) => self.need_all(&[point(*a), point(*b), line(*l)]),
            Atom::MeetLL(l, m) | Atom::EqL(l, m) => self.need_all(&[line(*l), line(*m)]),
            Atom::MeetLC(l, c) => self.need_all(&[line(*l), circle(*c)]),
            Atom::MeetCC(c, d) | Atom::EqC(c, d) => self.need_all(&[circle(*c), circle(*d)]),
            Atom::EqP(a, b) => self.need_all(&[point(*a), point(*b)]),
            Atom::MagEq(x, y) | Atom::MagLt(x, y) => self.need_sums(x.items(), y.items()),
        }
    }

    /// The objects of the literals are needed.
    #[tactic(auto, using(crate::proofs::walks::Both::joining))]
    pub fn need_objects_of_all(&mut self, lits: &[Lit]) -> Result<(), AllocError>
        ensures { OnOk result
            (self.new ≡ both self.old (wanted_objects (objects_of_lits lits.now))) }
    {
        for lit in lits {
            self.need_objects_of(lit)?;
        }
        Ok(())
    }

    /// The literal is looked up.
    #[tactic(auto, using(crate::proofs::walks::Both::joining))]
    pub fn look_up(&mut self, alloc: Global, lit: &Lit) -> Result<(), AllocError>
        ensures { OnOk result (self.new ≡ both self.old (wanted_lits (lit.now ∷ []))) }
    {
        self.lits.push(copy(alloc, lit)?)?;
        Ok(())
    }

    /// The literals are looked up.
    #[tactic(auto, using(crate::proofs::walks::Both::joining))]
    pub fn look_up_all(&mut self, lits: Vec<Lit>) -> Result<(), AllocError>
        ensures { OnOk result (self.new ≡ both self.old (wanted_lits lits.items)) }
    {
        for lit in lits {
            self.lits.push(lit)?;
        }
        Ok(())
    }

    /// The literal is looked up, and its objects are named.
    #[tactic(auto, using(crate::proofs::walks::Both::joining))]
    pub fn name(&mut self, alloc: Global, lit: &Lit) -> Result<(), AllocError>
        ensures { OnOk result (self.new ≡ both self.old (of_lit lit.now)) }
    {
        self.look_up(alloc, lit)?;
        self.need_objects_of(lit)
    }

    /// This is wanted too.
    pub fn append(&mut self, more: Wanted) -> Result<(), AllocError>
        ensures { OnOk result (self.new ≡ both self.old more) }
    {
        let Wanted { lits, objects } = more;
        for lit in lits {
            self.lits.push(lit)?;
        }
        self.objects.extend_from_slice(&objects)
    }

    /// What of it is outside of a block, where this holds before the block: literals that are facts
    /// there, and objects in scope.
    pub fn outside(self, alloc: Global, state: &StepState) -> Result<Wanted, AllocError>
        ensures { IfOk result (λ w. w ≡ wants_outside state.now.scope state.now.facts self) }
    {
        let Wanted { lits, objects } = self;
        let mut outer = Wanted::new(alloc);
        for lit in lits {
            if state.facts.has(&lit) {
                outer.lits.push(lit)?;
            } else {
                mem::drop(lit);
            }
        }
        for object in &objects {
            if object.num < count(state.scope, object.sort) {
                outer.objects.push(*object)?;
            }
        }
        Ok(outer)
    }

    /// Whether one the same is looked up.
    pub fn has(&self, lit: &Lit) -> bool
        ensures { result ≡ has self.now.lits lit.now }
    {
        self.lits.iter().any(|l| same(l, lit))
    }

    /// Whether the object is needed.
    pub fn needs(&self, object: Obj) -> bool
        ensures { result ≡ is_needed self.now object }
    {
        self.objects.iter().any(|o| is_same_object(object, *o))
    }
}
