ghost use Rattle.std.specs.Prelude.{◌≡◌, Some};
ghost use Rattle.std.specs.Int.{from_bool};
ghost use Rattle.syntax.specs.Constants.{constant_kind};
ghost use Rattle.syntax.specs.Decoder.{kind_of};
ghost use Rattle.syntax.specs.Encoder.{kind_number};
ghost use Rattle.syntax.specs.Words.{kind_word, constant_text};

use std::fmt;

#[derive(Clone, Copy, Debug, Default, PartialEq, Eq)]
pub enum Kind {
    #[default]
    Truth,
    Number,
}

// As NLUSTRE names it.
impl fmt::Display for Kind {
    ghost output = { λ kind. Some (kind_word kind) };

    fn fmt<W: fmt::Write>(&self, f: &mut fmt::Formatter<W>) -> fmt::Result {
        match self {
            Kind::Truth => f.write_str("bool"),
            Kind::Number => f.write_str("int"),
        }
    }
}

// The number that stands for it in its field of one bit.
impl From<Kind> for u32 {
    ghost from_gives = { λ kind n. n ≡ kind_number kind };

    fn from(kind: Kind) -> u32 {
        kind as u32
    }
}

// The kind by that bit.
impl From<bool> for Kind {
    ghost from_gives = { λ bit kind. kind ≡ kind_of (from_bool bit) };

    fn from(bit: bool) -> Kind {
        if bit { Kind::Number } else { Kind::Truth }
    }
}

// One stream of a node: its kind, and its clock, where 0 is the node's base.
#[derive(Clone, Copy, Debug, Default, PartialEq, Eq)]
pub struct Flow {
    pub kind: Kind,
    pub clock: u8,
}

// Present where the parent clock is and the flow has the side.
#[derive(Clone, Copy, Debug, Default, PartialEq, Eq)]
pub struct DerivedClock {
    pub parent: u8,
    pub flow: u8,
    pub side: bool,
}

// The first value of a delay.
#[derive(Clone, Copy, Debug, PartialEq, Eq)]
pub enum Constant {
    Truth(bool),
    Number(i32),
}

// The kind of a constant.
impl From<Constant> for Kind {
    ghost from_gives = { λ constant kind. kind ≡ constant_kind constant };

    fn from(constant: Constant) -> Kind {
        match constant {
            Constant::Truth(_) => Kind::Truth,
            Constant::Number(_) => Kind::Number,
        }
    }
}

impl fmt::Display for Constant {
    ghost output = { λ value. Some (constant_text value) };

    fn fmt<W: fmt::Write>(&self, f: &mut fmt::Formatter<W>) -> fmt::Result {
        match self {
            Constant::Truth(truth) => write!(f, "{truth}"),
            Constant::Number(number) => write!(f, "{number}"),
        }
    }
}
