//! Images of 16 frames by their words: what they have, and what a test puts into one.

use std::alloc::{AllocError, Global};

/// Where the frames begin.
const BODY: usize = 1804;

/// The word at a place.
pub(crate) fn word(bytes: &[u8], place: usize) -> u32 {
    match bytes.get(place..) {
        Some([a, b, c, d, ..]) => u32::from_le_bytes([*a, *b, *c, *d]),
        _ => 0,
    }
}

/// Puts a word at a place.
pub(crate) fn put(bytes: &mut [u8], place: usize, word: u32) {
    for (i, byte) in word.to_le_bytes().iter().enumerate() {
        if let Some(old) = bytes.get_mut(place.wrapping_add(i)) {
            *old = *byte;
        }
    }
}

/// Puts words, each at its place.
pub(crate) fn put_all(bytes: &mut [u8], words: &[(usize, u32)]) {
    for (place, word) in words {
        put(bytes, *place, *word);
    }
}

/// Where the word of an index of a frame stands.
pub(crate) fn place_of(frame: u32, index: u32) -> usize {
    let within = frame.wrapping_mul(4096).wrapping_add(index.wrapping_mul(4));
    BODY.wrapping_add(within as usize)
}

/// Where the record of a frame stands.
pub(crate) fn record_of(frame: u32) -> usize {
    1548_usize.wrapping_add(frame.wrapping_mul(16) as usize)
}

/// The words, other than 0, of an image that another kernel made of two processes that share a page, with the
/// word of that page. Process 0 has directory 10 and table 12, process 1 directory 5 and table 6; both map
/// frame 11, and frame 1 is free.
pub(crate) fn other_kernels_words(version: u32, page: u32) -> [(usize, u32); 37] {
    [
        (0, 0x4932_436d),
        (4, version),
        (8, 0x10),
        (12, 1),
        (20, 0xf),
        (24, 3),
        (28, 5),
        (32, 0xa),
        (36, 1),
        (44, 5),
        (48, 3),
        (56, 5),
        (1564, 1),
        (1580, 1),
        (1596, 1),
        (1612, 1),
        (1628, 2),
        (1632, 1),
        (1644, 3),
        (1648, 1),
        (1652, 0x140),
        (1660, 1),
        (1676, 1),
        (1692, 1),
        (1708, 2),
        (1724, 4),
        (1736, 2),
        (1740, 3),
        (1748, 0x100),
        (1756, 1),
        (1772, 1),
        (1788, 1),
        (23564, 0x6027),
        (26380, page),
        (43788, 0xc027),
        (46860, 9),
        (50956, page),
    ]
}

/// The word of a page in frame 11 that was stored to, as each version has it.
pub(crate) const PAGE_WORDS: [u32; 3] = [0, 0xb267, 0xba67];

/// The bytes of an image with these words.
fn spelled(alloc: Global, words: &[(usize, u32)]) -> Result<Vec<u8>, AllocError> {
    let mut bytes = vec![in alloc; 0u8; 67_340]?;
    put_all(&mut bytes, words);
    Ok(bytes)
}

/// The other kernel's image, of a version, with this word for the shared page.
pub(crate) fn other_image(alloc: Global, version: u32, page: u32) -> Result<Vec<u8>, AllocError> {
    spelled(alloc, &other_kernels_words(version, page))
}
