//! Why a call is refused: its layer, its number and, where there is one, its place.
#![tactic(auto)]

ghost use Rattle.std.specs.Prelude.{◌≡◌, Some};
ghost use Rattle.faults.specs.declared.Layer.{Layer};
ghost use Rattle.faults.specs.declared.Layer.TheVariants.{Field, Code, Sheet, Line};
ghost use Rattle.faults.specs.Table.{plain, told_at, number_of, layer_name, refusal};

use std::fmt;

/// What a field refuses; each case is its number.
#[derive(Clone, Copy, PartialEq, Eq, Debug)]
pub enum FieldCause {
    /// An operand or a value of q or more.
    Operand = 11,
    /// The inverse of 0.
    InverseOfZero = 12,
    /// A roll of q - 1 or more.
    Roll = 13,
    /// A pair field over a field that is too wide to double.
    NoDoubling = 14,
}

/// What a code refuses; each case is its number.
#[derive(Clone, Copy, PartialEq, Eq, Debug)]
pub enum CodeCause {
    /// A check of r or more.
    Check = 21,
    /// A place of n or more.
    Place = 22,
    /// A message index of k or more.
    MessageIndex = 23,
    /// A parity length outside 2 to 512.
    ParityLength = 24,
    /// An array of too many places or checks.
    ArraySize = 25,
}

/// What a sheet refuses; each case is its number.
#[derive(Clone, Copy, PartialEq, Eq, Debug)]
pub enum SheetCause {
    /// The place is held.
    Held = 31,
    /// The place is lost.
    Lost = 32,
    /// A length other than k.
    Length = 33,
    /// No word agrees with what is held.
    NoWord = 41,
    /// Two or more words agree with what is held.
    SeveralWords = 42,
}

/// What the reader of a line refuses; each case is its number.
#[derive(Clone, Copy, PartialEq, Eq, Debug)]
pub enum LineCause {
    /// A line of over 2,100 bytes.
    TooLong = 51,
    /// An unknown first field.
    Command = 52,
    /// A wrong number of fields.
    FieldCount = 53,
    /// A field that is not a number.
    NotANumber = 54,
    /// An answer buffer of under 24 bytes.
    Buffer = 55,
}

/// The layer that refuses, with its cause.
#[derive(Clone, Copy, PartialEq, Eq, Debug)]
pub enum Layer {
    Field(FieldCause),
    Code(CodeCause),
    Sheet(SheetCause),
    Line(LineCause),
}

/// A refusal. It is carried up by `?` as it is.
#[derive(Clone, Copy, PartialEq, Eq, Debug)]
pub struct Fault {
    pub layer: Layer,
    pub place: Option<usize>,
}

/// A cause of a refusal, which tells its layer.
pub trait Cause {
    ghost layer: { Self → Layer };

    /// The layer that refuses, with this cause.
    fn layer(self) -> Layer
        ensures { result ≡ layer self };
}

impl Cause for FieldCause {
    ghost layer = { Field };

    fn layer(self) -> Layer {
        Layer::Field(self)
    }
}

impl Cause for CodeCause {
    ghost layer = { Code };

    fn layer(self) -> Layer {
        Layer::Code(self)
    }
}

impl Cause for SheetCause {
    ghost layer = { Sheet };

    fn layer(self) -> Layer {
        Layer::Sheet(self)
    }
}

impl Cause for LineCause {
    ghost layer = { Line };

    fn layer(self) -> Layer {
        Layer::Line(self)
    }
}

/// A refusal that tells no place.
impl<C: Cause> From<C> for Fault {
    ghost from_gives = { λ cause fault. fault ≡ plain (C.layer cause) };

    fn from(cause: C) -> Fault {
        Fault {
            layer: cause.layer(),
            place: None,
        }
    }
}

impl Fault {
    /// The same fault, told at a place.
    pub fn at(self, place: usize) -> Fault
        ensures { result ≡ told_at self place }
    {
        Fault {
            layer: self.layer,
            place: Some(place),
        }
    }

    /// The fault's number in the table of faults.
    pub fn number(&self) -> u8
        ensures { result ≡ number_of self.now }
    {
        match self.layer {
            Layer::Field(cause) => cause as u8,
            Layer::Code(cause) => cause as u8,
            Layer::Sheet(cause) => cause as u8,
            Layer::Line(cause) => cause as u8,
        }
    }

    /// The name that is printed for the fault's layer.
    pub fn layer_name(&self) -> &'static str
        ensures { result.now ≡ layer_name self.now.layer }
    {
        match self.layer {
            Layer::Field(_) => "field",
            Layer::Code(_) => "code",
            Layer::Sheet(_) => "sheet",
            Layer::Line(_) => "line",
        }
    }

    /// The place that the fault tells, if it tells one.
    pub fn place(&self) -> Option<usize>
        ensures { result ≡ self.now.place }
    {
        self.place
    }
}

/// A refusal's line: `no`, the layer, the number, and the place or `-`, parted by tabs.
impl fmt::Display for Fault {
    ghost output = { λ f. Some (refusal f) };

    fn fmt<W: fmt::Write>(&self, f: &mut fmt::Formatter<W>) -> fmt::Result {
        let layer = self.layer_name();
        let number = self.number();
        match self.place {
            Some(place) => write!(f, "no\t{layer}\t{number}\t{place}"),
            None => write!(f, "no\t{layer}\t{number}\t-"),
        }
    }
}
