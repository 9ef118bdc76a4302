//! The image of a core, its bytes, and what is refused of bytes that were changed.

use crate::common::{
    booted, check_cut, check_fault, check_fault_text, image_in, image_of, process, say, spelled,
    store,
};
use crate::comparing::{same, same_bytes};
use crate::images::{put, put_all, word};
use base_tests::streams::{BrokenWriter, Pieces};
use kernel_calls::{Core, Role};
use memory_image::{CoreImageFault, Image, ImageFault, WriteFailed, read_image, write_image};
use page_words::{Frame, Vaddr};
use std::process::Abort;

/// How many bytes an image of 16 frames has.
const LENGTH: usize = 67_340;

/// The bytes of the image of a freshly booted core of 16 frames.
fn booted_bytes<R: AllocGlobal + Abort>(rt: &R) -> Vec<u8> {
    spelled(rt, &image_of(rt, &booted(rt, 16)))
}

/// The frame of the directory of process 0.
fn directory_of(rt: &impl Abort, core: &Core) -> u32 {
    core.directory(process(rt, 0)).expect(rt, "a directory").0
}

/// The first bytes.
fn front<'a>(rt: &impl Abort, bytes: &'a [u8], length: usize) -> &'a [u8] {
    bytes.get(..length).expect(rt, "a front")
}

/// The words of the first record.
fn first_record(bytes: &[u8]) -> [u32; 6] {
    [
        word(bytes, 12),
        word(bytes, 16),
        word(bytes, 20),
        word(bytes, 24),
        word(bytes, 28),
        word(bytes, 32),
    ]
}

/// Bytes begin as an image of version 2 and 16 frames does, with the record of the root and its directory.
fn check_heading(rt: &impl Abort, bytes: &[u8], directory: u32) {
    let heading = b"mC2I\x02\0\0\0\x10\0\0\0";
    same_bytes(rt, front(rt, bytes, 12), heading);
    same(rt, &first_record(bytes), &[1, 0, 15, 1, 0, directory]);
}

#[test]
fn spells_a_booted_core(rt: HostRuntime) {
    let core = booted(&rt, 16);
    let bytes = spelled(&rt, &image_of(&rt, &core));
    same(&rt, &bytes.len(), &LENGTH);
    check_heading(&rt, &bytes, directory_of(&rt, &core));
}

/// A core of 16 frames whose process 0 stored a word.
fn stored<R: AllocGlobal + Abort>(rt: &R) -> Core {
    let mut core = booted(rt, 16);
    store(&mut core, process(rt, 0), Vaddr(0x4000_0000), 7);
    core
}

/// How many frames of a core have the same role in an image.
fn count_roles(image: &Image, core: &Core) -> u64 {
    let mut same = 0u64;
    for number in 0..core.frames() {
        let role = Some(core.role(Frame(number)));
        same = same.wrapping_add(u64::from(image.role(Frame(number)) == role));
    }
    same
}

/// An image is of version 2 and 16 frames, each with its role in the core, and has no role for a frame more.
fn check_roles(rt: &impl Abort, image: &Image, core: &Core) {
    let counts = (image.version(), image.frames(), count_roles(image, core));
    same(rt, &counts, &(2, 16, 16));
    same(rt, &image.role(Frame(16)), &None);
}

/// Checks that bytes encode an image that agrees with the image that they are of, and with its core.
fn check_read<R: AllocGlobal + Abort>(rt: &R, bytes: &[u8], image: &Image, core: &Core) {
    let (read, root) = (image_in(rt, bytes), process(rt, 0));
    check_roles(rt, &read, core);
    same(rt, &read.process(root), &image.process(root));
    same_bytes(rt, read.bytes(), core.memory().bytes());
    same_bytes(rt, &spelled(rt, &read), bytes);
}

#[test]
fn reads_back_what_it_wrote(rt: HostRuntime) {
    let core = stored(&rt);
    let image = image_of(&rt, &core);
    check_read(&rt, &spelled(&rt, &image), &image, &core);
}

/// Checks that an image with a byte after it is refused.
fn check_longer<R: AllocGlobal + Abort>(rt: &R, mut bytes: Vec<u8>) {
    bytes.push(0).ok().expect(rt, "memory for a byte");
    check_fault(rt, &bytes, Some(ImageFault::BadLength));
}

#[test]
fn refuses_what_is_no_image(rt: HostRuntime) {
    let front = b"mC2I\x02\0\0\0\x10\0\0";
    let bytes = booted_bytes(&rt);
    check_fault(&rt, b"", Some(ImageFault::NotImage));
    check_fault(&rt, b"mC2", Some(ImageFault::NotImage));
    check_fault(&rt, b"mC2I", Some(ImageFault::BadLength));
    check_fault(&rt, front, Some(ImageFault::BadLength));
    check_fault(&rt, &bytes, None);
    check_cut(&rt, &bytes);
    check_longer(&rt, bytes);
}

/// With another word at a place the bytes are refused so. The old word is put back.
fn check_changed<R: AllocGlobal + Abort>(
    rt: &R,
    bytes: &mut [u8],
    place: usize,
    changed: u32,
    fault: ImageFault,
) {
    let old = word(bytes, place);
    put(bytes, place, changed);
    check_fault(rt, bytes, Some(fault));
    put(bytes, place, old);
}

/// With another word at a place that field is the first that breaks its rule.
fn check_field<R: AllocGlobal + Abort>(rt: &R, bytes: &mut [u8], offset: u32, changed: u32) {
    let fault = ImageFault::BadField { offset };
    check_changed(rt, bytes, offset as usize, changed, fault);
}

/// The first three words.
fn check_heading_words<R: AllocGlobal + Abort>(rt: &R, bytes: &mut [u8]) {
    check_changed(rt, bytes, 0, 0x4932_4300, ImageFault::NotImage);
    check_changed(rt, bytes, 4, 0, ImageFault::BadVersion);
    check_changed(rt, bytes, 4, 3, ImageFault::BadVersion);
    check_field(rt, bytes, 8, 15);
    check_field(rt, bytes, 8, 4097);
    check_changed(rt, bytes, 8, 17, ImageFault::BadLength);
}

/// Words of the records of processes.
fn check_process_words<R: AllocGlobal + Abort>(rt: &R, bytes: &mut [u8]) {
    // live, parent, and the directory's frame, of process 0
    check_field(rt, bytes, 12, 2);
    check_field(rt, bytes, 16, 64);
    check_field(rt, bytes, 16, 1);
    check_field(rt, bytes, 32, 16);
    // process 5 is not live
    check_field(rt, bytes, 136, 1);
    check_field(rt, bytes, 140, 1);
    check_field(rt, bytes, 152, 1);
}

/// Words of the records of frames.
fn check_frame_words<R: AllocGlobal + Abort>(rt: &R, bytes: &mut [u8]) {
    // frame 3 is free
    check_field(rt, bytes, 1596, 5);
    check_field(rt, bytes, 1600, 1);
    check_field(rt, bytes, 1604, 1);
    check_field(rt, bytes, 1608, 1);
    // the last field of all
    check_field(rt, bytes, 1800, 1);
}

/// Checks that the bytes encode an image of version 1 with another word at the place of the version.
fn check_first_version<R: AllocGlobal + Abort>(rt: &R, bytes: &mut [u8]) {
    put(bytes, 4, 1);
    same(rt, &image_in(rt, bytes).version(), &1);
}

#[test]
fn refuses_a_changed_word(rt: HostRuntime) {
    let mut bytes = booted_bytes(&rt);
    check_heading_words(&rt, &mut bytes);
    check_process_words(&rt, &mut bytes);
    check_frame_words(&rt, &mut bytes);
    check_fault(&rt, &bytes, None);
    check_first_version(&rt, &mut bytes);
}

/// An image with a frame of each kind that has numbers. Frame 3 is the table of the last index of process 63, and frame
/// 4 a page with the highest number of holders.
fn with_roles<R: AllocGlobal + Abort>(rt: &R) -> Image {
    let table = [(1596, 3), (1600, 63), (1604, 1023)];
    let page = [(1612, 4), (1624, u32::MAX)];
    let mut bytes = booted_bytes(rt);
    put_all(&mut bytes, &table);
    put_all(&mut bytes, &page);
    image_in(rt, &bytes)
}

/// A frame of an image has this role.
fn check_role(rt: &impl Abort, image: &Image, frame: u32, role: Role) {
    same(rt, &image.role(Frame(frame)), &Some(role));
}

#[test]
fn tells_the_role_of_each_kind(rt: HostRuntime) {
    let image = with_roles(&rt);
    let (pid, slot) = (process(&rt, 63), 1023);
    check_role(&rt, &image, 3, Role::Table { pid, slot });
    check_role(&rt, &image, 4, Role::Page { count: u32::MAX });
}

/// Checks that a writer that fails after 40 bytes has the first 40 of the image.
fn check_broken(rt: &impl Abort, image: &Image, bytes: &[u8]) {
    let mut writer = BrokenWriter::new(40, Pieces::Whole);
    same(rt, &write_image(image, &mut writer), &Err(WriteFailed));
    same_bytes(rt, writer.written.as_slice(), front(rt, bytes, 40));
}

#[test]
fn stops_where_a_write_fails(rt: HostRuntime) {
    let image = image_of(&rt, &booted(&rt, 16));
    check_broken(&rt, &image, &spelled(&rt, &image));
}

#[test]
fn faults_have_their_texts(rt: HostRuntime) {
    let field = ImageFault::BadField { offset: 140 };
    check_fault_text(&rt, &ImageFault::NotImage, "not an image");
    check_fault_text(&rt, &ImageFault::BadLength, "wrong image length");
    check_fault_text(&rt, &ImageFault::BadVersion, "unknown image version");
    check_fault_text(&rt, &field, "bad field at byte 140");
    check_fault_text(&rt, &ImageFault::NoMemory, "out of memory");
}

/// The image of a core. Where memory is refused it is asked for again, and a line is printed that says so.
fn made_again<R: AllocGlobal + Abort + Print>(rt: &R, core: &Core) -> Image {
    match Image::of(rt.alloc(), core) {
        Ok(image) => image,
        Err(fault) => {
            same(rt, &fault, &CoreImageFault::NoMemory);
            say(rt, "NoMemory, and then an image of a core");
            image_of(rt, core)
        }
    }
}

/// The image in bytes, read in the same way.
fn read_again<R: AllocGlobal + Abort + Print>(rt: &R, bytes: &[u8]) -> Image {
    match read_image(rt.alloc(), bytes) {
        Ok(image) => image,
        Err(fault) => {
            same(rt, &fault, &ImageFault::NoMemory);
            say(rt, "NoMemory, and then an image of bytes");
            image_in(rt, bytes)
        }
    }
}

/// `rt try --test --fail-alloc N` refuses the Nth allocation of this test alone. The first four are those
/// of the core; then come two of `Image::of`, which answers NoMemory where it meets a refusal, and then succeeds.
#[test]
fn an_image_is_made_after_want_of_memory(rt: HostRuntime) {
    same(&rt, &made_again(&rt, &booted(&rt, 16)).frames(), &16);
}

/// The seventh allocation is that of the bytes; then come two of `read_image`, which answers NoMemory where it
/// meets a refusal, and then reads the same bytes.
#[test]
fn an_image_is_read_after_want_of_memory(rt: HostRuntime) {
    same(&rt, &read_again(&rt, &booted_bytes(&rt)).frames(), &16);
}
