// The readings that are settled, in one table.
ghost use Rattle.std.specs.List.{AllByRecursion};
ghost use Rattle.worked.specs.Table.{Right, table};
ghost use Rattle.worked.specs.Zones.{OfEveryRule};

// Every line of the table is right, and its answers and surveys are those of every rule with that zone and formula. It
// does nothing; its contract is the theorem.
pub fn settled_examples_stand()
    ensures right { AllByRecursion Right table }
    ensures of_every_rule { OfEveryRule }
{}
