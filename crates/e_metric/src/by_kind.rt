//! One thing for each kind of magnitude.

ghost use Rattle.std.specs.Prelude.{◌≡◌};
ghost use Rattle.e_metric.specs.inner.ByKind.{in_kind_order, at_kind, other_two};

use e_literal::Kind;

/// One for segments, one for angles and one for areas.
#[derive(Drop)]
pub struct ByKind<T> {
    pub segments: T,
    pub angles: T,
    pub areas: T,
}

/// The kinds other than this one, in their order.
pub fn other_kinds(which: Kind) -> (Kind, Kind)
    ensures { result ≡ other_two which }
{
    match which {
        Kind::Segment => (Kind::Angle, Kind::Area),
        Kind::Angle => (Kind::Segment, Kind::Area),
        Kind::Area => (Kind::Segment, Kind::Angle),
    }
}

impl<T> ByKind<T> {
    /// One for the kind, and those for the [`other_kinds`] in their order.
    pub fn arrange(which: Kind, own: T, first: T, second: T) -> ByKind<T>
        ensures { result ≡ in_kind_order which own first second }
    {
        match which {
            Kind::Segment => ByKind {
                segments: own,
                angles: first,
                areas: second,
            },
            Kind::Angle => ByKind {
                segments: first,
                angles: own,
                areas: second,
            },
            Kind::Area => ByKind {
                segments: first,
                angles: second,
                areas: own,
            },
        }
    }

    /// That of the kind.
    pub fn get(&self, which: Kind) -> &T
        ensures { result.now ≡ at_kind self.now which }
    {
        match which {
            Kind::Segment => &self.segments,
            Kind::Angle => &self.angles,
            Kind::Area => &self.areas,
        }
    }
}
