//! The numbers of the facts by their marks: what a literal with known numbers may be is looked for
//! among those of its mark alone.

ghost use Rattle.std.specs.Prelude.{◌≡◌, [], length, IfOk, OnOk};
ghost use Rattle.e_transfer.specs.Listings;
ghost use Rattle.e_transfer.specs.Listings.{HasNumbersOf, IsListing};

use crate::marks::{MARKS, mark_of};
use e_literal::{Atom, Items, Lit};
use std::alloc::{AllocError, Global};

/// The numbers of a literal, with 0 for the third of two.
pub type Triple = (u16, u16, u16);

/// The numbers of the facts of each mark.
pub type Listing = Vec<Items<Triple>>;

/// The numbers of a diagram atom.
pub fn numbers_of(atom: &Atom) -> Triple
    ensures { result ≡ Listings.numbers_of_atom atom.now }
{
    match atom {
        Atom::On(a, b)
        | Atom::OnC(a, b)
        | Atom::Inside(a, b)
        | Atom::Center(a, b)
        | Atom::MeetLL(a, b)
        | Atom::MeetLC(a, b)
        | Atom::MeetCC(a, b)
        | Atom::EqP(a, b)
        | Atom::EqL(a, b)
        | Atom::EqC(a, b) => (*a, *b, 0),
        Atom::Between(a, b, c) | Atom::Same(a, b, c) => (*a, *b, *c),
        Atom::MagEq(_, _) | Atom::MagLt(_, _) => (0, 0, 0),
    }
}

/// The lists of no facts.
fn empty_listing(alloc: Global) -> Result<Listing, AllocError>
    ensures { IfOk result (λ v. IsListing [] v.items) }
{
    let mut listing = Vec::with_capacity(alloc, MARKS)?;
    for _mark in 0..MARKS {
        listing.push(Items::empty(alloc))?;
    }
    Ok(listing)
}

/// Adds the numbers of a fact to those of its mark.
fn add_numbers(listing: &mut [Items<Triple>], fact: &Lit) -> Result<(), AllocError>
    requires { length listing.old ≡ 28 }
    ensures { OnOk result (HasNumbersOf listing.old fact.now listing.new) }
{
    listing[mark_of(fact)].push(numbers_of(&fact.atom))
}

/// The numbers of the facts of each mark.
pub fn listing_of(alloc: Global, facts: &[Lit]) -> Result<Listing, AllocError>
    ensures { IfOk result (λ v. IsListing facts.now v.items) }
{
    let mut listing = empty_listing(alloc)?;
    for fact in facts {
        add_numbers(&mut listing, fact)?;
    }
    Ok(listing)
}
