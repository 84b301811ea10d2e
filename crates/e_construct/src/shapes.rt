//! The table of the twenty shapes.

#![allow(non_upper_case_globals)]

ghost use Rattle.std.specs.Prelude.{◌≡◌, ◌≤◌, length};
ghost use Rattle.e_construct.specs.Shapes.{shape_row};
ghost use Rattle.e_construct.specs.Construct.{sorts_of};
ghost use Rattle.e_construct.specs.inner.Views.{shape_row_view};

use crate::construction::Shape;
use crate::pattern::Avoids::{AnyApartFrom, AnyObject, NoObject};
use crate::pattern::Pattern::{Is, Not};
use crate::pattern::Relation::{
    Between, Center, EqP, Inside, MeetCC, MeetLC, MeetLL, On, OnC, Same,
};
use crate::pattern::{Row, shape};
use e_literal::{Obj, Sort};

const a: Obj = Obj {
    sort: Sort::Point,
    num: 0,
};

const b: Obj = Obj {
    sort: Sort::Point,
    num: 1,
};

const c: Obj = Obj {
    sort: Sort::Point,
    num: 2,
};

const d: Obj = Obj {
    sort: Sort::Point,
    num: 3,
};

const p: Obj = Obj {
    sort: Sort::Point,
    num: 6,
};

const q: Obj = Obj {
    sort: Sort::Point,
    num: 7,
};

const L: Obj = Obj {
    sort: Sort::Line,
    num: 1,
};

const M: Obj = Obj {
    sort: Sort::Line,
    num: 2,
};

const A: Obj = Obj {
    sort: Sort::Circle,
    num: 0,
};

const B: Obj = Obj {
    sort: Sort::Circle,
    num: 1,
};

static ROWS: [Row; 20] = [
    shape!(;  => p Point; ; AnyObject),
    shape!(L;  => p Point; Is(On(p, L)); AnyApartFrom(L)),
    shape!(L b c; Is(On(b, L)), Is(On(c, L)), Not(EqP(b, c)) => p Point; Is(On(p, L)), Is(Between(b, p, c)); AnyApartFrom(L)),
    shape!(L c b; Is(On(b, L)), Is(On(c, L)), Not(EqP(b, c)) => p Point; Is(On(p, L)), Is(Between(b, c, p)); AnyApartFrom(L)),
    shape!(L b; Not(On(b, L)) => p Point; Is(Same(p, b, L)); AnyObject),
    shape!(L b; Not(On(b, L)) => p Point; Not(On(p, L)), Not(Same(p, b, L)); AnyObject),
    shape!(A;  => p Point; Is(OnC(p, A)); AnyApartFrom(A)),
    shape!(A;  => p Point; Is(Inside(p, A)); AnyObject),
    shape!(A;  => p Point; Not(Inside(p, A)), Not(OnC(p, A)); AnyObject),
    shape!(a b; Not(EqP(a, b)) => L Line; Is(On(a, L)), Is(On(b, L)); NoObject),
    shape!(a b; Not(EqP(a, b)) => A Circle; Is(Center(a, A)), Is(OnC(b, A)); NoObject),
    shape!(L M; Is(MeetLL(L, M)) => p Point; Is(On(p, L)), Is(On(p, M)); NoObject),
    shape!(L A; Is(MeetLC(L, A)) => p Point; Is(On(p, L)), Is(OnC(p, A)); NoObject),
    shape!(L A; Is(MeetLC(L, A)) => p Point q Point; Is(On(p, L)), Is(OnC(p, A)), Is(On(q, L)), Is(OnC(q, A)), Not(EqP(p, q)); NoObject),
    shape!(L A b c; Is(Inside(b, A)), Is(On(b, L)), Not(Inside(c, A)), Not(OnC(c, A)), Is(On(c, L)) => p Point; Is(On(p, L)), Is(OnC(p, A)), Is(Between(b, p, c)); NoObject),
    shape!(L A b c; Is(Inside(b, A)), Is(On(b, L)), Not(EqP(c, b)), Is(On(c, L)) => p Point; Is(On(p, L)), Is(OnC(p, A)), Is(Between(p, b, c)); NoObject),
    shape!(A B; Is(MeetCC(A, B)) => p Point; Is(OnC(p, A)), Is(OnC(p, B)); NoObject),
    shape!(A B; Is(MeetCC(A, B)) => p Point q Point; Is(OnC(p, A)), Is(OnC(p, B)), Is(OnC(q, A)), Is(OnC(q, B)), Not(EqP(p, q)); NoObject),
    shape!(A B L b c d; Is(MeetCC(A, B)), Is(Center(c, A)), Is(Center(d, B)), Is(On(c, L)), Is(On(d, L)), Not(On(b, L)) => p Point; Is(OnC(p, A)), Is(OnC(p, B)), Is(Same(p, b, L)); NoObject),
    shape!(A B L b c d; Is(MeetCC(A, B)), Is(Center(c, A)), Is(Center(d, B)), Is(On(c, L)), Is(On(d, L)), Not(On(b, L)) => p Point; Is(OnC(p, A)), Is(OnC(p, B)), Not(On(p, L)), Not(Same(p, b, L)); NoObject),
];

/// The row of a shape.
#[tactic(auto, unfolding(crate::specs::Shapes::shape_row))]
pub fn row(shape: Shape) -> &'static Row
    ensures row { shape_row_view result.now ≡ shape_row shape }
    ensures sorts { result.now.sorts.now ≡ sorts_of (shape_row shape).made }
    ensures few { length result.now.sorts.now ≤ 2 }
{
    &ROWS[shape as usize]
}
