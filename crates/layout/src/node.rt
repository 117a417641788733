ghost use Rattle.std.specs.Prelude.{◌≡◌, ◌+◌};
ghost use Rattle.syntax.specs.Syntax.{Expression};
ghost use Rattle.syntax.specs.Encoder.{form_number};
ghost use Rattle.layout.specs.declared.node.Form.TheVariants.{Plain};
ghost use Rattle.layout.specs.Blanks.{blank_clock, blank_equation, blank_flow, blank_node, blank_span};
ghost use Rattle.layout.specs.Layout.{form_in};

use crate::up_to::{Blank, UpTo};
use syntax::header::{Constant, DerivedClock, Flow, Kind};

// The cells of an expression: where they begin among the cells of the block, and how many they are. They are places and
// no slice, since the cells lie in the same rows and move with them.
#[derive(Clone, Copy, Debug, Default, PartialEq, Eq)]
pub struct Span {
    pub from: u16,
    pub len: u8,
}

pub const BLANK_SPAN: Span = Span { from: 0, len: 0 };

impl Blank for Span {
    ghost blank = { blank_span };

    fn blank() -> Span {
        BLANK_SPAN
    }
}

pub const BLANK_FLOW: Flow = Flow {
    kind: Kind::Truth,
    clock: 0,
};

impl Blank for Flow {
    ghost blank = { blank_flow };

    fn blank() -> Flow {
        BLANK_FLOW
    }
}

pub const BLANK_CLOCK: DerivedClock = DerivedClock {
    parent: 0,
    flow: 0,
    side: false,
};

impl Blank for DerivedClock {
    ghost blank = { blank_clock };

    fn blank() -> DerivedClock {
        BLANK_CLOCK
    }
}

// The flows that a call defines, in the order of the callee's outputs.
pub type Results = UpTo<u8, 8>;

// The expressions that a call passes, in the order of the callee's inputs.
pub type Arguments = UpTo<Span, 8>;

// What an equation says: a flow is an expression; a flow is a first value and then, a beat late, an expression; or
// results are what a node makes of arguments.
#[derive(Clone, Copy, Debug, PartialEq, Eq)]
pub enum Form {
    Plain {
        flow: u8,
        cells: Span,
    },
    Delay {
        flow: u8,
        first: Constant,
        cells: Span,
    },
    Call {
        node: u8,
        results: Results,
        arguments: Arguments,
    },
}

impl Default for Form {
    ghost is_default = { λ form. form ≡ Plain 0 record { from = 0; len = 0 } };

    fn default() -> Form {
        Form::Plain {
            flow: 0,
            cells: Span::default(),
        }
    }
}

// The number that stands for a form in its field of two bits.
impl From<&Form> for u32 {
    ghost from_gives = { λ form n. (cells : Expression) → n ≡ form_number (form_in cells form.now) };

    fn from(form: &Form) -> u32 {
        match form {
            Form::Plain { .. } => 0,
            Form::Delay { .. } => 1,
            Form::Call { .. } => 2,
        }
    }
}

#[derive(Clone, Copy, Debug, Default, PartialEq, Eq)]
pub struct Equation {
    pub clock: u8,
    pub form: Form,
}

pub const BLANK_EQUATION: Equation = Equation {
    clock: 0,
    form: Form::Plain {
        flow: 0,
        cells: BLANK_SPAN,
    },
};

impl Blank for Equation {
    ghost blank = { blank_equation };

    fn blank() -> Equation {
        BLANK_EQUATION
    }
}

// The derived clocks of a node, numbered from 1.
pub type Clocks = UpTo<DerivedClock, 7>;

pub const MOST_EQUATIONS: usize = 23;

pub type Equations = UpTo<Equation, MOST_EQUATIONS>;

// A node: its flows are its inputs, then its outputs, then its locals; its derived clocks are numbered from 1. The three
// counts stand beside the flows, since the format has them and flows alone do not say where one group ends.
#[derive(Clone, Copy, Debug, Default, PartialEq, Eq)]
pub struct Node {
    pub inputs: u8,
    pub outputs: u8,
    pub locals: u8,
    pub flows: UpTo<Flow, 31>,
    pub clocks: Clocks,
    pub equations: Equations,
}

impl Node {
    // How many flows its counts say that it has.
    pub fn flow_count(&self) -> usize
        ensures { result ≡ self.now.inputs + self.now.outputs + self.now.locals }
    {
        let locals = usize::from(self.locals);
        usize::from(self.inputs) + usize::from(self.outputs) + locals
    }
}

pub const BLANK_NODE: Node = Node {
    inputs: 0,
    outputs: 0,
    locals: 0,
    flows: UpTo {
        places: [BLANK_FLOW; 31],
        count: 0,
    },
    clocks: UpTo {
        places: [BLANK_CLOCK; 7],
        count: 0,
    },
    equations: UpTo {
        places: [BLANK_EQUATION; MOST_EQUATIONS],
        count: 0,
    },
};

impl Blank for Node {
    ghost blank = { blank_node };

    fn blank() -> Node {
        BLANK_NODE
    }
}
