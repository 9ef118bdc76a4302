//! Images for the tests of the programs.

use std::process::Abort;
use tower_cli::write_script_image;

/// The places of the version in an image or a snapshot, and of process 0's quota in an image.
const VERSION: u8 = 4;

const QUOTA: u8 = 20;

/// The bytes of the image of 16 frames after a script.
pub(crate) fn image_after<R: AllocGlobal + Abort>(rt: &R, script: &str) -> Vec<u8> {
    let mut bytes = Vec::new(rt.alloc());
    write_script_image(rt.alloc(), &mut script.as_bytes(), &mut bytes, 16)
        .ok()
        .expect(rt, "an image after a script");
    bytes
}

/// The bytes of the image of 16 frames after no event.
pub(crate) fn opening<R: AllocGlobal + Abort>(rt: &R) -> Vec<u8> {
    image_after(rt, "")
}

/// Puts a word at a place.
fn put(bytes: &mut [u8], place: u8, word: u32) {
    for (i, byte) in word.to_le_bytes().iter().enumerate() {
        if let Some(old) = bytes.get_mut(place as usize + i) {
            *old = *byte;
        }
    }
}

/// The bytes of that image with a word put at a place.
fn opening_with<R: AllocGlobal + Abort>(rt: &R, place: u8, word: u32) -> Vec<u8> {
    let mut bytes = opening(rt);
    put(&mut bytes, place, word);
    bytes
}

/// The bytes of that image with this quota for process 0.
pub(crate) fn opening_with_quota<R: AllocGlobal + Abort>(rt: &R, quota: u32) -> Vec<u8> {
    opening_with(rt, QUOTA, quota)
}

/// The same in another version.
pub(crate) fn opening_of_version<R: AllocGlobal + Abort>(rt: &R, version: u32) -> Vec<u8> {
    opening_with(rt, VERSION, version)
}

/// These bytes of an image or a snapshot, in another version.
pub(crate) fn of_version<R: AllocGlobal + Abort>(rt: &R, bytes: &[u8], version: u32) -> Vec<u8> {
    let mut changed = Vec::from_slice(rt.alloc(), bytes).ok().expect(rt, "memory");
    put(&mut changed, VERSION, version);
    changed
}
