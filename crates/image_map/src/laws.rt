//! Laws of an image's text. Each is the contract of a function that computes nothing.

ghost use Rattle.image_map.specs.Laws.{ListsEachRun, ListsEachSlot, HoldersAreSlots};

/// States that the text of a sound image has a line for each run of a process. If the image represents a state, the
/// pages of these runs, one after the other, are the slots that the process has mapped. Each is there once, in
/// ascending order and with the flags of the state. The number of holders of a page that isn't lazy is that of its
/// slots. It computes nothing.
pub fn maps_list_each_slot()
    ensures runs { ListsEachRun }
    ensures slots { ListsEachSlot }
    ensures holders { HoldersAreSlots }
{}
