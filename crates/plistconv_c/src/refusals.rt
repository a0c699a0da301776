//! A refusal as a number and a place.
ghost use Rattle.std.specs.Prelude.{◌≡◌, ◌≢◌, ◌<◌, None, IfSome};
ghost use Rattle.plist_value.specs.declared.refusals.Place.{Place};
ghost use Rattle.plistconv_c.specs.Lines.{IsReport, IsUnreported};
ghost use Rattle.plistconv_c.specs.Refusals.{no_refusal, refusal_of, unit_and_place};

use plist_forms::Fault;
use plist_value::{Place, Refusal, Report};

/// Why a call was refused. All fields are 0 if it was not.
#[repr(C)]
#[derive(Clone, Copy, PartialEq, Eq, Drop)]
pub struct Refused {
    /// The place, in the unit of `unit`; 0 if there is none.
    pub place: u64,
    /// The number of the refusal.
    pub number: u8,
    /// The unit of `place`: 0 none, 1 the number of an object, 2 the offset of a byte in the input,
    /// 3 the number of bytes sent.
    pub unit: u8,
    /// Which input of the call is refused, 1 or 2.
    pub input: u8,
}

impl Refused {
    pub(crate) fn none() -> Refused
        ensures { result ≡ no_refusal }
    {
        Refused {
            place: 0,
            number: 0,
            unit: 0,
            input: 0,
        }
    }

    pub(crate) fn of(fault: &Fault, input: u8) -> Refused
        ensures { result ≡ refusal_of fault.now input }
    {
        let (unit, place) = unit_and_place(fault.report().1);
        Refused {
            place,
            number: fault.code(),
            unit,
            input,
        }
    }

    // Sets the fields to those of the fault, and returns the number of the refusal.
    pub(crate) fn set(&mut self, fault: &Fault, input: u8) -> u8
        ensures set { self.new ≡ refusal_of fault.now input }
        ensures number { result ≡ self.new.number }
        ensures above { 0 < result }
    {
        *self = Refused::of(fault, input);
        self.number
    }

    // Returns the report that is described, if a fault has it.
    pub(crate) fn report(&self) -> Option<Report>
        ensures found { IfSome result (λ report. IsReport self.now report) }
        ensures none { result ≡ None → IsUnreported self.now }
    {
        let refusal = Refusal::of_number(self.number)?;
        let place = place_of(self.unit, self.place)?;
        let report = Report(refusal, place);
        if report.is_possible() {
            Some(report)
        } else {
            None
        }
    }
}

// Returns the unit of a place, and the place in that unit.
fn unit_and_place(place: Place) -> (u8, u64)
    ensures { result ≡ unit_and_place place }
{
    match place {
        Place::Nowhere => (0, 0),
        Place::Object(object) => (1, object),
        Place::Octet(octet) => (2, octet as u64),
        Place::After(sent) => (3, sent),
    }
}

// Returns the place with this unit and this number, if there is one.
fn place_of(unit: u8, place: u64) -> Option<Place>
    ensures found { IfSome result (λ found. unit_and_place found ≡ (unit, place)) }
    ensures none { result ≡ None → (found : Place) → unit_and_place found ≢ (unit, place) }
{
    match unit {
        0 if place == 0 => Some(Place::Nowhere),
        1 => Some(Place::Object(place)),
        2 => Some(Place::Octet(place as usize)),
        3 => Some(Place::After(place)),
        _ => None,
    }
}
