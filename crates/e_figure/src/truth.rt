//! The truth of literals in a figure.

ghost use Rattle.std.specs.Ordering.{int_eq};
ghost use Rattle.std.specs.Prelude.{pos, ◌≡◌, ◌≤◌, ◌^◌, ◌-ℤ◌, ◌*ℤ◌, IsTrue, int_lt, unsigned_abs};
ghost use Rattle.e_figure.specs.Figure.{is_small_number, is_small_point};
ghost use Rattle.e_figure.specs.Figure.{is_small_line, is_small_circle};
ghost use Rattle.e_figure.specs.Truth as truth;

use crate::figure::{Figure, Point, Round, Straight};
use crate::measure::{are_equal, cross, dot, four_times, less, less_square, product};
use e_literal::{Atom, Lit};

/// Whether the literal is true in the figure. It is asked of diagram literals in the figure's
/// scope; of others the answer is that of the definition, and says nothing.
pub fn holds(figure: &Figure, lit: &Lit) -> bool
    ensures { result ≡ truth.is_true figure.now lit.now }
{
    if lit.neg {
        !atom_holds(figure, &lit.atom)
    } else {
        atom_holds(figure, &lit.atom)
    }
}

fn atom_holds(figure: &Figure, atom: &Atom) -> bool
    ensures { result ≡ truth.atom_holds figure.now atom.now }
{
    match atom {
        Atom::On(a, l) => is_on(figure.point(*a), figure.line(*l)),
        Atom::OnC(a, c) => is_on_circle(figure.point(*a), figure.circle(*c)),
        Atom::Inside(a, c) => is_inside(figure.point(*a), figure.circle(*c)),
        Atom::Center(a, c) => is_center(figure.point(*a), figure.circle(*c)),
        Atom::Between(a, b, c) => is_between(figure.point(*a), figure.point(*b), figure.point(*c)),
        Atom::Same(a, b, l) => is_same_side(figure.point(*a), figure.point(*b), figure.line(*l)),
        Atom::MeetLL(l, m) => lines_meet(figure.line(*l), figure.line(*m)),
        Atom::MeetLC(l, c) => line_meets(figure.line(*l), figure.circle(*c)),
        Atom::MeetCC(c, e) => circles_meet(figure.circle(*c), figure.circle(*e)),
        Atom::EqP(a, b) => same_point(figure.point(*a), figure.point(*b)),
        Atom::EqL(l, m) => same_line(figure.line(*l), figure.line(*m)),
        Atom::EqC(c, e) => same_circle(figure.circle(*c), figure.circle(*e)),
        Atom::MagEq(_, _) => false,
        Atom::MagLt(_, _) => false,
    }
}

// ---- points and lines

/// On which side of the line, and how far.
fn side(x: i32, y: i32, l: Straight) -> i128
    requires x { IsTrue (is_small_number x) }
    requires y { IsTrue (is_small_number y) }
    requires l { IsTrue (is_small_line l) }
    ensures value { result ≡ truth.side_of_line x y l }
    ensures size { unsigned_abs result ≤ 2 ^ 43 }
{
    cross(
        i128::from(l.dx),
        i128::from(l.dy),
        less(x, l.x),
        less(y, l.y),
    )
}

fn is_on(a: Point, l: Straight) -> bool
    requires a { IsTrue (is_small_point a) }
    requires l { IsTrue (is_small_line l) }
    ensures { result ≡ truth.is_on a l }
{
    is_zero(side(a.x, a.y, l))
}

fn is_same_side(a: Point, b: Point, l: Straight) -> bool
    requires a { IsTrue (is_small_point a) }
    requires b { IsTrue (is_small_point b) }
    requires l { IsTrue (is_small_line l) }
    ensures { result ≡ truth.is_same_side a b l }
{
    product(side(a.x, a.y, l), side(b.x, b.y, l)) > 0
}

/// The cross product of the directions.
fn turn(l: Straight, m: Straight) -> i128
    requires l { IsTrue (is_small_line l) }
    requires m { IsTrue (is_small_line m) }
    ensures { result ≡ truth.cross l.dx l.dy m.dx m.dy }
{
    cross(
        i128::from(l.dx),
        i128::from(l.dy),
        i128::from(m.dx),
        i128::from(m.dy),
    )
}

fn lines_meet(l: Straight, m: Straight) -> bool
    requires l { IsTrue (is_small_line l) }
    requires m { IsTrue (is_small_line m) }
    ensures { result ≡ truth.lines_meet l m }
{
    !is_zero(turn(l, m))
}

/// On which side of the first line the point of the second is, and how far.
fn base_side(l: Straight, m: Straight) -> i128
    requires l { IsTrue (is_small_line l) }
    requires m { IsTrue (is_small_line m) }
    ensures { result ≡ truth.side_of_line m.x m.y l }
{
    side(m.x, m.y, l)
}

fn same_line(l: Straight, m: Straight) -> bool
    requires l { IsTrue (is_small_line l) }
    requires m { IsTrue (is_small_line m) }
    ensures { result ≡ truth.same_line l m }
{
    is_zero(turn(l, m)) && is_zero(base_side(l, m))
}

#[tactic(auto, using(crate::proofs::Bits::same_bits))]
fn is_zero(n: i128) -> bool
    ensures { result ≡ int_eq n (pos 0) }
{
    !(n < 0) && !(0 < n)
}

// ---- points

/// An arrow between two points.
#[derive(Clone, Copy)]
struct Arrow {
    x: i128,
    y: i128,
}

fn way(from: Point, to: Point) -> Arrow
    requires from { IsTrue (is_small_point from) }
    requires to { IsTrue (is_small_point to) }
    ensures x { result.x ≡ to.x -ℤ from.x }
    ensures y { result.y ≡ to.y -ℤ from.y }
    ensures x_size { unsigned_abs result.x ≤ 2 ^ 21 }
    ensures y_size { unsigned_abs result.y ≤ 2 ^ 21 }
{
    let x = less(to.x, from.x);
    let y = less(to.y, from.y);
    Arrow { x, y }
}

/// The cross product of the arrows from the first point to the others.
fn turn_at(a: Point, b: Point, c: Point) -> i128
    requires a { IsTrue (is_small_point a) }
    requires b { IsTrue (is_small_point b) }
    requires c { IsTrue (is_small_point c) }
    ensures { result ≡ truth.cross (b.x -ℤ a.x) (b.y -ℤ a.y) (c.x -ℤ a.x) (c.y -ℤ a.y) }
{
    let u = way(a, b);
    let v = way(a, c);
    cross(u.x, u.y, v.x, v.y)
}

/// The dot product of the arrows from the second point to the others.
fn reach_at(a: Point, b: Point, c: Point) -> i128
    requires a { IsTrue (is_small_point a) }
    requires b { IsTrue (is_small_point b) }
    requires c { IsTrue (is_small_point c) }
    ensures { result ≡ truth.dot (a.x -ℤ b.x) (a.y -ℤ b.y) (c.x -ℤ b.x) (c.y -ℤ b.y) }
{
    let u = way(b, a);
    let v = way(b, c);
    dot(u.x, u.y, v.x, v.y)
}

fn are_in_line(a: Point, b: Point, c: Point) -> bool
    requires a { IsTrue (is_small_point a) }
    requires b { IsTrue (is_small_point b) }
    requires c { IsTrue (is_small_point c) }
    ensures { result
        ≡ int_eq (truth.cross (b.x -ℤ a.x) (b.y -ℤ a.y) (c.x -ℤ a.x) (c.y -ℤ a.y)) (pos 0) }
{
    is_zero(turn_at(a, b, c))
}

fn are_opposite(a: Point, b: Point, c: Point) -> bool
    requires a { IsTrue (is_small_point a) }
    requires b { IsTrue (is_small_point b) }
    requires c { IsTrue (is_small_point c) }
    ensures { result
        ≡ int_lt (truth.dot (a.x -ℤ b.x) (a.y -ℤ b.y) (c.x -ℤ b.x) (c.y -ℤ b.y)) (pos 0) }
{
    reach_at(a, b, c) < 0
}

fn is_between(a: Point, b: Point, c: Point) -> bool
    requires a { IsTrue (is_small_point a) }
    requires b { IsTrue (is_small_point b) }
    requires c { IsTrue (is_small_point c) }
    ensures { result ≡ truth.is_between a b c }
{
    are_in_line(a, b, c) && are_opposite(a, b, c)
}

fn is_same(a: i32, b: i32) -> bool
    ensures { result ≡ int_eq a b }
{
    are_equal(i128::from(a), i128::from(b))
}

fn same_point(a: Point, b: Point) -> bool
    ensures { result ≡ truth.same_point a b }
{
    is_same(a.x, b.x) && is_same(a.y, b.y)
}

// ---- circles

/// The square of the distance from a point to a center.
fn dist(a: Point, c: Round) -> i128
    requires a { IsTrue (is_small_point a) }
    requires c { IsTrue (is_small_circle c) }
    ensures value { result ≡ truth.dist a.x a.y c.x c.y }
    ensures size { unsigned_abs result ≤ 2 ^ 43 }
{
    let across = less(a.x, c.x);
    let up = less(a.y, c.y);
    dot(across, up, across, up)
}

fn is_inside(a: Point, c: Round) -> bool
    requires a { IsTrue (is_small_point a) }
    requires c { IsTrue (is_small_circle c) }
    ensures { result ≡ truth.is_inside a c }
{
    dist(a, c) < i128::from(c.square)
}

#[tactic(auto, using(crate::proofs::Bits::same_bits))]
fn is_on_circle(a: Point, c: Round) -> bool
    requires a { IsTrue (is_small_point a) }
    requires c { IsTrue (is_small_circle c) }
    ensures { result ≡ truth.is_on_circle a c }
{
    let d = dist(a, c);
    let square = i128::from(c.square);
    !(d < square) && !(square < d)
}

fn is_center(a: Point, c: Round) -> bool
    ensures { result ≡ truth.is_center a c }
{
    is_same(a.x, c.x) && is_same(a.y, c.y)
}

fn same_circle(c: Round, e: Round) -> bool
    ensures { result ≡ truth.same_circle c e }
{
    is_same(c.x, e.x) && is_same(c.y, e.y) && are_equal(i128::from(c.square), i128::from(e.square))
}

/// The square of the center's side of the line.
fn squared_side(l: Straight, c: Round) -> i128
    requires l { IsTrue (is_small_line l) }
    requires c { IsTrue (is_small_circle c) }
    ensures { result ≡ truth.side_of_line c.x c.y l *ℤ truth.side_of_line c.x c.y l }
{
    let far = side(c.x, c.y, l);
    product(far, far)
}

/// The square of the direction's size.
fn squared_direction(l: Straight) -> i128
    requires l { IsTrue (is_small_line l) }
    ensures value { result ≡ truth.dot l.dx l.dy l.dx l.dy }
    ensures size { unsigned_abs result ≤ 2 ^ 43 }
{
    let dx = i128::from(l.dx);
    let dy = i128::from(l.dy);
    dot(dx, dy, dx, dy)
}

/// What the square of the side is less than, where line and circle cross.
fn squared_reach(l: Straight, c: Round) -> i128
    requires l { IsTrue (is_small_line l) }
    requires c { IsTrue (is_small_circle c) }
    ensures { result ≡ pos c.square *ℤ truth.dot l.dx l.dy l.dx l.dy }
{
    product(i128::from(c.square), squared_direction(l))
}

fn line_meets(l: Straight, c: Round) -> bool
    requires l { IsTrue (is_small_line l) }
    requires c { IsTrue (is_small_circle c) }
    ensures { result ≡ truth.line_meets_circle l c }
{
    squared_side(l, c) < squared_reach(l, c)
}

/// The square of the distance of the centers, less both squares.
fn excess(c: Round, e: Round) -> i128
    requires c { IsTrue (is_small_circle c) }
    requires e { IsTrue (is_small_circle e) }
    ensures value { result ≡ truth.dist e.x e.y c.x c.y -ℤ pos c.square -ℤ pos e.square }
    ensures size { unsigned_abs result ≤ 2 ^ 44 }
{
    let apart = dist(Point { x: e.x, y: e.y }, c);
    let rest = less_square(apart, c.square);
    less_square(rest, e.square)
}

fn squared_excess(c: Round, e: Round) -> i128
    requires c { IsTrue (is_small_circle c) }
    requires e { IsTrue (is_small_circle e) }
    ensures { result ≡ (truth.dist e.x e.y c.x c.y -ℤ pos c.square -ℤ pos e.square)
        *ℤ (truth.dist e.x e.y c.x c.y -ℤ pos c.square -ℤ pos e.square) }
{
    let rest = excess(c, e);
    product(rest, rest)
}

/// Four times the product of the squares.
fn product_of_squares(c: Round, e: Round) -> i128
    requires c { IsTrue (is_small_circle c) }
    requires e { IsTrue (is_small_circle e) }
    ensures { result ≡ pos 4 *ℤ (pos c.square *ℤ pos e.square) }
{
    four_times(product(i128::from(c.square), i128::from(e.square)))
}

fn circles_meet(c: Round, e: Round) -> bool
    requires c { IsTrue (is_small_circle c) }
    requires e { IsTrue (is_small_circle e) }
    ensures { result ≡ truth.circles_meet c e }
{
    squared_excess(c, e) < product_of_squares(c, e)
}
