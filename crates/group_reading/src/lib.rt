// The readings of a group and the walk that finds them, as definitions with their theorem: all of it stands in specs/. The code of the walk is in crate group_walk.
#![tactic(auto)]
