//! The lines of the twenty constructions.

#![allow(non_upper_case_globals)]

ghost use Rattle.std.specs.Prelude.{◌≡◌, map};
ghost use Rattle.e_construct.specs.Construct.{sorts_of};
ghost use Rattle.e_construct.specs.Lines;
ghost use Rattle.e_construct.specs.Views.{piece_view};

use crate::construction::Shape;
use crate::pattern::Avoids;
use crate::shapes::row;
use e_literal::Obj;

/// A piece of a line after the word `let`: the name of a new object, the name of the next argument,
/// or a word.
#[derive(Clone, Copy)]
pub enum Piece {
    New,
    Argument,
    Word(&'static [u8]),
}

use Piece::{Argument, New};

const point: Piece = Piece::Word(b"point");

const line: Piece = Piece::Word(b"line");

const circle: Piece = Piece::Word(b"circle");

const on: Piece = Piece::Word(b"on");

const between: Piece = Piece::Word(b"between");

const beyond: Piece = Piece::Word(b"beyond");

const from: Piece = Piece::Word(b"from");

const side: Piece = Piece::Word(b"side");

const opposite: Piece = Piece::Word(b"opposite");

const of: Piece = Piece::Word(b"of");

const inside: Piece = Piece::Word(b"inside");

const outside: Piece = Piece::Word(b"outside");

const meet: Piece = Piece::Word(b"meet");

const centers: Piece = Piece::Word(b"centers");

macro_rules! written {
    ($($piece:ident)*) => {
        &[$($piece),*]
    };
}

static LINES: [&[Piece]; 20] = [
    written!(New point),
    written!(New on Argument),
    written!(New on Argument between Argument Argument),
    written!(New on Argument beyond Argument from Argument),
    written!(New side Argument of Argument),
    written!(New opposite Argument of Argument),
    written!(New on Argument),
    written!(New inside Argument),
    written!(New outside Argument),
    written!(New line Argument Argument),
    written!(New circle Argument Argument),
    written!(New meet Argument Argument),
    written!(New meet Argument Argument),
    written!(New New meet Argument Argument),
    written!(New meet Argument Argument between Argument Argument),
    written!(New meet Argument Argument beyond Argument from Argument),
    written!(New meet Argument Argument),
    written!(New New meet Argument Argument),
    written!(New meet Argument Argument side Argument of Argument centers Argument Argument),
    written!(New meet Argument Argument opposite Argument of Argument centers Argument Argument),
];

static SHAPES: [Shape; 20] = [
    Shape::Free,
    Shape::OnLine,
    Shape::Within,
    Shape::Beyond,
    Shape::SideOf,
    Shape::Opposite,
    Shape::OnCircle,
    Shape::Inside,
    Shape::Outside,
    Shape::LineThrough,
    Shape::CircleAt,
    Shape::MeetLines,
    Shape::MeetOne,
    Shape::MeetBoth,
    Shape::MeetWithin,
    Shape::MeetBeyond,
    Shape::CirclesOne,
    Shape::CirclesBoth,
    Shape::CirclesSide,
    Shape::CirclesOpposite,
];

/// The twenty shapes, in the order of the table.
pub fn all_shapes() -> &'static [Shape]
    ensures { result.now ≡ Lines.all_shapes }
{
    &SHAPES
}

/// The line of a shape, after the word `let`.
#[tactic(auto, unfolding(crate::specs::Lines::pieces))]
pub fn pieces(shape: Shape) -> &'static [Piece]
    ensures { map piece_view result.now ≡ Lines.pieces shape }
{
    LINES[shape as usize]
}

/// Whether the line of a shape may end with the word `avoid` and objects.
pub fn may_avoid(shape: Shape) -> bool
    ensures { result ≡ Lines.may_avoid shape }
{
    match row(shape).avoids {
        Avoids::NoObject => false,
        Avoids::AnyObject => true,
        Avoids::AnyApartFrom(_) => true,
    }
}

/// Whether objects may be the first arguments of a shape, by their sorts.
pub fn takes(shape: Shape, objects: &[Obj]) -> bool
    ensures { result ≡ Lines.takes shape objects.now }
{
    begin_with(row(shape).args, objects)
}

#[tactic(auto, using(crate::proofs::Sorts::starting))]
fn begin_with(letters: &[Obj], objects: &[Obj]) -> bool
    ensures { result ≡ Lines.begin_with (sorts_of letters.now) objects.now }
{
    match (letters, objects) {
        (_, []) => true,
        ([], [_, ..]) => false,
        ([letter, letters @ ..], [object, objects @ ..]) => {
            letter.sort == object.sort && begin_with(letters, objects)
        }
    }
}
