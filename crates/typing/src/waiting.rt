use crate::part::Part;
use layout::up_to::UpTo;

mod stack;

// As many parts may wait at once.
const MOST_WAITING: usize = 8;

// The parts that wait for their operation, the latest last.
#[derive(Drop)]
pub struct Waiting {
    parts: UpTo<Part, MOST_WAITING>,
}
