// A whole second, in a time zone that is so many minutes from UTC.
ghost use Rattle.std.specs.Prelude.{◌≡◌, if◌then◌else◌};
ghost use Rattle.reql_datum.specs.Zone.{is_zone, IsZone, zone_order, moment_order, ZonesByText};

use crate::whole::Whole;
use std::cmp::Ordering;
use std::marker::Model;

/// A whole second since 1970, seen in a zone that is so many minutes east of UTC, or west below 0.
///
/// Contracts see both numbers.
#[derive(Clone, Copy)]
pub struct Moment {
    at: Whole,
    zone: i16,
}

impl Model for Moment {
    ghost use Rattle.std.specs.Prelude.{ℤ};
    ghost use Rattle.reql_datum.specs.Zone.{IsZone};

    ghost Value = { ℤ × ℤ };

    ghost view = { λ a. (a.at, a.zone) };

    ghost invariant = { λ a. IsZone a.zone };

    ghost inverse = { λ d. record { at = d.0; zone = d.1 } };
}

impl Moment {
    /// The moment, or None where the zone is a day or more from UTC.
    pub fn of(at: Whole, zone: i16) -> Option<Moment>
        ensures { result ≡ (if is_zone zone then Some (at, zone) else None) }
    {
        if -1439 <= zone && zone <= 1439 {
            Some(Moment { at, zone })
        } else {
            None
        }
    }

    /// The seconds since 1970, in UTC.
    pub fn at(self) -> Whole
        ensures { result ≡ self.0 }
    {
        self.at
    }

    /// The minutes east of UTC.
    pub fn zone(self) -> i16
        ensures value { result ≡ self.1 }
        ensures in_range { IsZone result }
    {
        self.zone
    }

    /// By the instant, and then by the zone.
    pub fn order(self, other: Moment) -> Ordering
        ensures { result ≡ moment_order self other }
    {
        let instants = self.at.get().cmp(&other.at.get());
        instants.then(order_zones(self.zone, other.zone))
    }
}

// East of UTC first, and then by the distance.
fn order_zones(a: i16, b: i16) -> Ordering
    ensures { result ≡ zone_order a b }
{
    match (a < 0, b < 0) {
        (false, false) => a.cmp(&b),
        (false, true) => Ordering::Less,
        (true, false) => Ordering::Greater,
        (true, true) => b.cmp(&a),
    }
}

/// Zones are in the order of their texts, as `+05:30`.
pub fn zone_laws()
    ensures { ZonesByText }
{}
