//! Laws of images. Each is the contract of a function that computes nothing.

ghost use Rattle.memory_image.specs.Machine.{ImagesStand};
ghost use Rattle.memory_image.specs.Refusals.{RefusedWhereNotSpelled};
ghost use Rattle.memory_image.specs.Sound.{StandsForOne};
ghost use Rattle.memory_image.specs.Spelling.{SpellingIsExact, SpellingsAreLong};

/// States that an image represents at most one pair of spaces and book. It computes nothing.
pub fn images_stand_for_one()
    ensures { StandsForOne }
{}

/// States that each image has one encoding, and no bytes encode two images. It computes nothing.
pub fn images_have_one_spelling()
    ensures exact { SpellingIsExact }
    ensures long { SpellingsAreLong }
{}

/// States that the image of a machine represents the state that the machine's own memory represents. It computes
/// nothing.
pub fn images_of_machines_stand()
    ensures { ImagesStand }
{}

/// States that there is a reason against bytes exactly if they encode no image. It computes nothing.
pub fn bytes_are_refused_where_they_spell_none()
    ensures { RefusedWhereNotSpelled }
{}
