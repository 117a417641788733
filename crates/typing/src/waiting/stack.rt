ghost use Rattle.std.specs.Prelude.{◌≡◌, []};
ghost use Rattle.typing.specs.Stack.{Gives, push, take_part, take_plain, alone_part};
ghost use Rattle.typing.specs.Waiting.{waiting_in};

use crate::part::Part;
use crate::waiting::{MOST_WAITING, Waiting};
use layout::up_to::UpTo;

impl Waiting {
    pub fn new() -> Waiting
        ensures { waiting_in result ≡ [] }
    {
        Waiting { parts: UpTo::new() }
    }

    // Refuses a ninth part.
    pub fn push(&mut self, part: Part) -> Option<()>
        ensures { Gives (push part (waiting_in self.old)) result (waiting_in self.new) }
    {
        if self.parts.len() == MOST_WAITING {
            return None;
        }
        self.parts.push(part);
        Some(())
    }

    pub fn take(&mut self) -> Option<Part>
        ensures { Gives (take_part (waiting_in self.old)) result (waiting_in self.new) }
    {
        self.parts.pop()
    }

    // Refuses a merge and an if.
    pub fn take_plain(&mut self) -> Option<Part>
        ensures { Gives (take_plain (waiting_in self.old)) result (waiting_in self.new) }
    {
        self.take().filter(|part| !part.control)
    }

    // The part that waits alone.
    pub fn alone(&self) -> Option<Part>
        ensures { result ≡ alone_part (waiting_in self.now) }
    {
        match self.parts.as_slice() {
            [part] => Some(*part),
            _ => None,
        }
    }
}
