ghost use Rattle.nego_merge.specs.Law.{MergingKeeps};

/// For every work, of any number of agents and atoms, sound or not, and all sizes of data: an allowed merge leaves a
/// work that is sound exactly where this one is. Its complete runs relate the same data, whatever the tables, as long
/// as each outcome that was read acts on the parties of its atom alone.
pub fn merging_keeps()
    ensures { MergingKeeps }
{}
