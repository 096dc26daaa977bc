// Why a call was refused: the layer that refused it, the number of the question that was answered no, and the place that the question is about.
#![tactic(auto)]

ghost use Rattle.std.specs.Prelude.{◌≡◌, Some};
ghost use Rattle.refusals.specs.Numbers.{layer_number, reason_layer, reason_number, refusal_at};
ghost use Rattle.refusals.specs.Text.{refusal_text};

use std::error::Error;
use std::fmt;

#[derive(Clone, Copy, PartialEq, Eq, Debug)]
pub enum Layer {
    Reader,
    Board,
    Store,
}

impl Layer {
    // no discriminants: a cast of a layer is its place among the three, and one of a reason its place among the reasons
    pub fn number(self) -> u8
        ensures { result ≡ layer_number self }
    {
        match self {
            Layer::Reader => 1,
            Layer::Board => 2,
            Layer::Store => 3,
        }
    }
}

// The question that was answered no.
#[derive(Clone, Copy, PartialEq, Eq, Debug)]
pub enum Reason {
    // the store has no such item; the place is the item
    NoSuchItem,
    // the store will not surely take another write; the place is 0
    NoRoom,
    // the row lent to a tape is too short, too long (place 0), or has another item at its front (the place of the first such entry)
    BadTapeRow,
    // the line has more than 140 characters; the place is 140
    LineTooLong,
    // a character is not one of 0 to 9 and a to f (the place is its index), or there are oddly many (the place is how many)
    NotHexadecimal,
    // no frame begins with this byte, or the line is empty; the place is 0
    UnknownKind,
    // no frame of its kind has that many bytes; the place is how many
    WrongLength,
    // the mode of an access is neither 00 nor 01; the place is the index of that byte
    BadMode,
}

impl Reason {
    pub fn layer(self) -> Layer
        ensures { result ≡ reason_layer self }
    {
        match self {
            Reason::LineTooLong
            | Reason::NotHexadecimal
            | Reason::UnknownKind
            | Reason::WrongLength
            | Reason::BadMode => Layer::Reader,
            Reason::NoSuchItem | Reason::NoRoom | Reason::BadTapeRow => Layer::Store,
        }
    }

    pub fn number(self) -> u8
        ensures { result ≡ reason_number self }
    {
        match self {
            Reason::NoSuchItem => 20,
            Reason::NoRoom => 21,
            Reason::BadTapeRow => 22,
            Reason::LineTooLong => 30,
            Reason::NotHexadecimal => 31,
            Reason::UnknownKind => 32,
            Reason::WrongLength => 33,
            Reason::BadMode => 34,
        }
    }

    pub fn at(self, place: usize) -> Refusal
        ensures { result ≡ refusal_at self place }
    {
        Refusal {
            reason: self,
            place,
        }
    }
}

// A place may be an index into a row of any length, so it is as wide as one.
#[derive(Clone, Copy, PartialEq, Eq, Debug)]
pub struct Refusal {
    pub reason: Reason,
    pub place: usize,
}

impl fmt::Display for Refusal {
    ghost output = { λ r. Some (refusal_text r) };

    fn fmt<W: fmt::Write>(&self, f: &mut fmt::Formatter<W>) -> fmt::Result {
        let layer = self.reason.layer().number();
        let number = self.reason.number();
        let place = self.place;
        write!(f, "layer {layer}, number {number}, place {place}")
    }
}

impl Error for Refusal {}
