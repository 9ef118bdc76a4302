//! Laws of restored cores. Each is the contract of a function that computes nothing.

ghost use Rattle.image_restore.specs.Alike.{AnswerAlike, ShowOneFile};
ghost use Rattle.image_restore.specs.Resumed.{StoredMachinesResume};

/// States that two cores with the same offers, one in a state that the image of the other represents, give the same
/// replies to each list of events, and end in the same state. A restored core does so if the old one had no offer
/// pending. It computes nothing.
pub fn restored_cores_answer_alike()
    ensures { AnswerAlike }
{}

/// All bytes that encode an image which shows what one core does are the same. The image of a restored core therefore
/// has the bytes that the core was made of. It computes nothing.
pub fn restored_cores_have_their_files()
    ensures { ShowOneFile }
{}

/// States that the image which is read of a stored machine is sound, offers included, so that `restore_wide` makes a core
/// of it unless memory runs out. The core's state is the machine's: its spaces, its book and its offers. It computes
/// nothing.
pub fn stored_machines_resume()
    ensures { StoredMachinesResume }
{}
