//! Laws of snapshots. Each is the contract of a function that computes nothing.

ghost use Rattle.wide_image.specs.Apart.{FormatsAreApart};
ghost use Rattle.wide_image.specs.InUse.{FreeFramesDoNotMatter, MachinesAreRead, TextsTellMachines};
ghost use Rattle.wide_image.specs.Stored.{PiecesMakeImages};

/// States that bytes which begin as a snapshot encode no image, and bytes which begin as an image no snapshot: the first
/// reason against either is NotImage. It computes nothing.
pub fn formats_are_apart()
    ensures { FormatsAreApart }
{}

/// States that what free frames hold is no part of the state that an image represents. It computes nothing.
pub fn free_frames_do_not_matter()
    ensures { FreeFramesDoNotMatter }
{}

/// States that two snapshots with one text have the same offers, and the same in each frame that isn't free. It
/// computes nothing.
pub fn texts_tell_machines()
    ensures { TextsTellMachines }
{}

/// States that the snapshot which is read of a machine's text represents the machine's state, and has its offers. It
/// computes nothing.
pub fn machines_are_read()
    ensures { MachinesAreRead }
{}

/// States that what the snapshot of a core begins with and then the records of all its frames, in order, are its
/// snapshot. It computes nothing.
pub fn pieces_make_images()
    ensures { PiecesMakeImages }
{}
