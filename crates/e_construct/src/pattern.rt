//! Literals over the variables of a shape.

use e_literal::{Obj, Sort};

/// A diagram relation between variables.
#[derive(Clone, Copy)]
pub enum Relation {
    On(Obj, Obj),
    OnC(Obj, Obj),
    Inside(Obj, Obj),
    Center(Obj, Obj),
    Between(Obj, Obj, Obj),
    Same(Obj, Obj, Obj),
    MeetLL(Obj, Obj),
    MeetLC(Obj, Obj),
    MeetCC(Obj, Obj),
    EqP(Obj, Obj),
}

/// A relation, or its negation.
#[derive(Clone, Copy)]
pub enum Pattern {
    Is(Relation),
    Not(Relation),
}

/// What a construction may avoid: nothing, any objects, or any objects where those of the
/// variable's sort have to differ from its argument.
#[derive(Clone, Copy)]
pub enum Avoids {
    NoObject,
    AnyObject,
    AnyApartFrom(Obj),
}

/// A shape: its arguments in the order of the line, what it needs, what it makes, with the sorts of
/// that, what it gives, and what it may avoid.
#[derive(Clone, Copy)]
pub struct Row {
    pub args: &'static [Obj],
    pub needs: &'static [Pattern],
    pub made: &'static [Obj],
    pub sorts: &'static [Sort],
    pub gives: &'static [Pattern],
    pub avoids: Avoids,
}

/// A row: its arguments, its needs, what it makes with the sorts, what it gives, and what it
/// avoids.
macro_rules! shape {
    ($($arg:ident)*; $($need:expr),* => $($made:ident $sort:ident)*; $($give:expr),*; $avoids:expr) => {
        $crate::pattern::Row {
            args: &[$($arg),*],
            needs: &[$($need),*],
            made: &[$($made),*],
            sorts: &[$(e_literal::Sort::$sort),*],
            gives: &[$($give),*],
            avoids: $avoids,
        }
    };
}

pub(crate) use shape;
