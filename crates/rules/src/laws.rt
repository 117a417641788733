ghost use Rattle.rules.specs.Examined.{ExaminedOnce};
ghost use Rattle.rules.specs.Trees.{TreesAreListed};

// A theorem: the tree that is found cell by cell is the one that the cells list.
pub fn trees_are_listed()
    ensures { TreesAreListed }
{}

// A theorem: examining has one answer for a block.
pub fn examined_once()
    ensures { ExaminedOnce }
{}
