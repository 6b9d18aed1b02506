//! What holds of every arena that has the shape, as functions that do nothing and whose contracts
//! are the laws.

ghost use Rattle.eb_arena.specs.Laws.{ElementsTell, ListsAreDetermined, ChangesElsewhereKeep, PartsMoveWhole, PlacesHaveOneWay, EntriesStandOnce, NodesStandOnce, PartsInTreesHang, ListsAreOrdered};

/// Reading one element tells the upper part of the tree that it is.
pub fn elements_tell()
    ensures { ElementsTell }
{}

/// The arena determines its trees, and a root's list is that of its tree.
pub fn lists_are_determined()
    ensures { ListsAreDetermined }
{}

/// A change of what is not in a tree leaves the tree as it was.
pub fn changes_elsewhere_keep()
    ensures { ChangesElsewhereKeep }
{}

/// A part whose link up is rewritten moves whole.
pub fn parts_move_whole()
    ensures { PartsMoveWhole }
{}

/// From one place one way leads up, to one root.
pub fn places_have_one_way()
    ensures { PlacesHaveOneWay }
{}

/// An entry stands at one position of one root's list.
pub fn entries_stand_once()
    ensures { EntriesStandOnce }
{}

/// A node stands at one place of one root's tree.
pub fn nodes_stand_once()
    ensures { NodesStandOnce }
{}

/// What is in a tree has a link up, so entries and nodes with none are in no tree.
pub fn parts_in_trees_hang()
    ensures { PartsInTreesHang }
{}

/// Keys never fall along a root's list.
pub fn lists_are_ordered()
    ensures { ListsAreOrdered }
{}
