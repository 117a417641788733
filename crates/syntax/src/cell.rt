ghost use Rattle.std.specs.Prelude.{◌≡◌, Some};
ghost use Rattle.std.specs.Int.{from_bool};
ghost use Rattle.syntax.specs.Decoder.{unary_op};
ghost use Rattle.syntax.specs.Encoder.{unary_number};
ghost use Rattle.syntax.specs.Words.{unary_word};

use std::fmt;

#[derive(Clone, Copy, Debug, PartialEq, Eq)]
pub enum UnaryOp {
    Not,
    Minus,
}

// As NLUSTRE writes it before what it is applied to.
impl fmt::Display for UnaryOp {
    ghost output = { λ op. Some (unary_word op) };

    fn fmt<W: fmt::Write>(&self, f: &mut fmt::Formatter<W>) -> fmt::Result {
        match self {
            UnaryOp::Not => f.write_str("not"),
            UnaryOp::Minus => f.write_str("-"),
        }
    }
}

// The number that stands for it in its field of one bit.
impl From<UnaryOp> for u32 {
    ghost from_gives = { λ op n. n ≡ unary_number op };

    fn from(op: UnaryOp) -> u32 {
        op as u32
    }
}

// The operator by that bit.
impl From<bool> for UnaryOp {
    ghost from_gives = { λ bit op. op ≡ unary_op (from_bool bit) };

    fn from(bit: bool) -> UnaryOp {
        if bit { UnaryOp::Minus } else { UnaryOp::Not }
    }
}

// One step of an expression in postfix order. Flows go by their number in the node.
#[derive(Clone, Copy, Debug, PartialEq, Eq)]
pub enum Cell {
    Flow(u8),
    Truth(bool),
    Number(i32),
    Unary(UnaryOp),
    // the code of and, or, xor, plus, less, times, quotient, below or same, 0 to 8: a number and no enum, since a rule
    // of the project has operators told apart by ranges of their codes
    Binary(u8),
    // a value kept only where the flow has the side
    When(u8, bool),
    // takes the true branch, then the false one, and chooses by the flow
    Merge(u8),
    // takes the condition, then the two branches
    If,
}
