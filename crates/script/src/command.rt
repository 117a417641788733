// The class system of a hall: ranks from 0 to a top, compartments, or pairs of classes of two such.
#[derive(Clone, Copy, Debug, PartialEq, Eq)]
pub enum System {
    Ranks { top: u8 },
    Compartments,
    RanksAndCompartments { top: u8 },
    RanksAndRanks { first: u8, second: u8 },
}

// What the numbers of a hall count: whole points, or hundredths of a point.
#[derive(Clone, Copy, Debug, PartialEq, Eq)]
pub enum Numbers {
    Points,
    Hundredths,
}

// How many rows each table of a hall has.
#[derive(Clone, Copy, Debug, PartialEq, Eq)]
pub struct Tables {
    pub cells: u32,
    pub expanded: u32,
    pub flows: u32,
    pub held: u32,
    pub answers: u32,
    pub classes: u32,
    pub stack: u32,
}

// One of the things that a hall is made with.
#[derive(Clone, Copy, Debug, PartialEq, Eq)]
pub enum Setting {
    System(System),
    Numbers(Numbers),
    Tables(Tables),
}

// A call that prints an outcome. The bytes are those of a block.
#[derive(Debug, PartialEq, Eq, Drop)]
pub enum Call {
    Read(Vec<u8>),
    Write,
    List(Vec<u8>),
    Examine(Vec<u8>),
}

// What a line of a script asks for.
#[derive(Debug, PartialEq, Eq, Drop)]
pub enum Command {
    Set(Setting),
    Call(Call),
}
