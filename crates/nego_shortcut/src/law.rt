ghost use Rattle.nego_shortcut.specs.Law.{ClosingKeeps, ShortcutsKeep};

/// For every work, of any number of agents and atoms, sound or not, and all sizes of data: an allowed shortcut leaves a
/// work that is sound exactly where this one is. Its complete runs relate the same data, whatever the tables, as long as
/// each outcome that was read acts on the parties of its atom alone.
pub fn shortcuts_keep()
    ensures { ShortcutsKeep }
{}

/// For every work, of any number of agents, and all sizes of data: an allowed closing leaves a work that is sound exactly
/// where this one is. Its complete runs relate the same data, whatever the tables, as long as each outcome that was read
/// acts on the parties of its atom alone.
pub fn closing_keeps()
    ensures { ClosingKeeps }
{}
