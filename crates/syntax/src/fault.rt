ghost use Rattle.std.specs.Prelude.{◌≡◌, Some};
ghost use Rattle.syntax.specs.Faults.{fault_of_read, fault_of_write, stage_name, told_text};

use std::fmt;

// Where in a hall's work a call was refused.
#[derive(Clone, Copy, Debug, PartialEq, Eq)]
pub enum Stage {
    Reading,
    Examining,
    Clearing,
    Running,
}

impl fmt::Display for Stage {
    ghost output = { λ stage. Some (stage_name stage) };

    fn fmt<W: fmt::Write>(&self, f: &mut fmt::Formatter<W>) -> fmt::Result {
        match self {
            Stage::Reading => f.write_str("reading"),
            Stage::Examining => f.write_str("examining"),
            Stage::Clearing => f.write_str("clearing"),
            Stage::Running => f.write_str("running"),
        }
    }
}

// A refusal as it is told: its number, its stage and two places, 0 where a place says nothing. Numbers and no enum, 0 and
// no Option: a host and a script are told so (docs/REFUSALS.md).
#[derive(Clone, Copy, Debug, PartialEq, Eq)]
pub struct Fault {
    pub number: u8,
    pub stage: Stage,
    pub first: usize,
    pub second: usize,
}

impl fmt::Display for Fault {
    ghost output = { λ fault. Some (told_text fault) };

    fn fmt<W: fmt::Write>(&self, f: &mut fmt::Formatter<W>) -> fmt::Result {
        let Fault {
            number,
            stage,
            first,
            second,
        } = self;
        write!(f, "{number} {stage} {first} {second}")
    }
}

// Why bytes are not read as a block.
#[derive(Clone, Copy, Debug, PartialEq, Eq)]
pub enum ReadFault {
    // fewer cells are lent than any block may need
    TooFewCells,
    // no byte, or more bytes than a block may have
    BlockLength,
    // the bytes end before or inside the field that begins at this bit
    Ends { bit: usize },
    // the field that begins at this bit has a value with no meaning
    NoMeaning { bit: usize },
    // after the last field, which ends before this bit, stands a bit that is not 0 or a further byte
    Filling { bit: usize },
}

impl From<ReadFault> for Fault {
    ghost from_gives = { λ e r. r ≡ fault_of_read e };

    fn from(e: ReadFault) -> Fault {
        let (number, first) = match e {
            ReadFault::TooFewCells => (1, 0),
            ReadFault::BlockLength => (2, 0),
            ReadFault::Ends { bit } => (3, bit),
            ReadFault::NoMeaning { bit } => (4, bit),
            ReadFault::Filling { bit } => (5, bit),
        };
        Fault {
            number,
            stage: Stage::Reading,
            first,
            second: 0,
        }
    }
}

// Why rows are not written as bytes.
#[derive(Clone, Copy, Debug, PartialEq, Eq)]
pub enum WriteFault {
    // fewer bytes to write into than a block may have
    TooShort,
}

impl From<WriteFault> for Fault {
    ghost from_gives = { λ e r. r ≡ fault_of_write e };

    fn from(e: WriteFault) -> Fault {
        match e {
            WriteFault::TooShort => Fault {
                number: 18,
                stage: Stage::Running,
                first: 0,
                second: 0,
            },
        }
    }
}
