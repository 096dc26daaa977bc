// The plan record: nothing yet, an orbit state, or a booking of a ground station.
ghost use Rattle.std.specs.Prelude.{◌≡◌, from_bits, to_bits};
ghost use Rattle.std.specs.Float.{binary64};
ghost use Rattle.values.specs.Rows.{plan_row, plan_of_row, MapsCoordinates};
ghost use Rattle.values.specs.Text.{plan_text, plan_row_text};

use crate::value::Value;
use std::{fmt, num};

// A plan, by the form that its coordinates have.
#[derive(Clone, Copy, PartialEq, Eq, Debug)]
pub enum Plan<C> {
    Empty,
    // a position in km, and when it was taken, in seconds
    Orbit { x: C, y: C, z: C, epoch: u32 },
    // a ground station from start to end, in seconds
    Booking { station: u16, start: u32, end: u32 },
}

pub type PlanRecord = Plan<f64>;

// A plan record with each float as its 64 bits, so that rows can be compared and kept byte for byte.
pub type PlanRow = Plan<u64>;

impl<C> Plan<C> {
    fn map<D, F: Fn(C) -> D>(self, change: F) -> Plan<D>
        requires { F.IsAlwaysCallable change }
        ensures { MapsCoordinates (F.post change) self result }
    {
        match self {
            Plan::Empty => Plan::Empty,
            Plan::Orbit { x, y, z, epoch } => Plan::Orbit {
                x: change(x),
                y: change(y),
                z: change(z),
                epoch,
            },
            Plan::Booking {
                station,
                start,
                end,
            } => Plan::Booking {
                station,
                start,
                end,
            },
        }
    }
}

fn bits_of(x: f64) -> u64
    ensures bits { result ≡ to_bits binary64 x }
    ensures back { from_bits binary64 result ≡ x }
{
    num::f64_to_bits_with_nan(x)
}

impl Value for PlanRecord {
    type Row = PlanRow;

    ghost rowed = { plan_row };

    ghost unrowed = { plan_of_row };

    fn to_row(self) -> PlanRow {
        self.map(bits_of)
    }

    fn from_row(row: PlanRow) -> PlanRecord {
        row.map(|bits| num::f64_from_bits_with_nan(bits))
    }
}

impl fmt::Display for PlanRecord {
    ghost output = { plan_text };

    fn fmt<W: fmt::Write>(&self, f: &mut fmt::Formatter<W>) -> fmt::Result {
        match *self {
            Plan::Empty => write!(f, "empty"),
            Plan::Orbit { x, y, z, epoch } => write!(
                f,
                "orbit at ({x}, {y}, {z}) km, epoch {epoch} s"
            ),
            Plan::Booking {
                station,
                start,
                end,
            } => write!(f, "booking of station {station}, seconds {start} to {end}"),
        }
    }
}

impl fmt::Display for PlanRow {
    ghost output = { plan_row_text };

    fn fmt<W: fmt::Write>(&self, f: &mut fmt::Formatter<W>) -> fmt::Result {
        match *self {
            Plan::Empty => write!(f, "empty"),
            Plan::Orbit { x, y, z, epoch } => write!(
                f,
                "orbit {x:016x} {y:016x} {z:016x}, epoch {epoch}"
            ),
            Plan::Booking {
                station,
                start,
                end,
            } => write!(f, "booking {station}, {start} to {end}"),
        }
    }
}
