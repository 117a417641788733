ghost use Rattle.classes.specs.Systems.{CompartmentMembers};

// A theorem: the order and the join of compartments, by their members.
pub fn compartment_members()
    ensures { CompartmentMembers }
{}
