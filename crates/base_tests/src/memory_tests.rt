//! Physical memory, byte by byte.
use crate::comparing::same;
use page_words::{Frame, WideFault};
use phys_memory::{FRAME_BYTES, Memory, MemoryFault};
use std::alloc::Global;
use std::test::Fail;

#[test]
fn writes_and_copies(rt: HostRuntime) -> Result<(), Fail> {
    let mut memory = Memory::new(rt.alloc(), 16)?;
    memory.write_word(0x3ffe, 0x3267);
    memory.write_byte(0x4000, 0xab);
    same(&rt, &memory.read_word(0x3ffe), &0x00ab_3267);
    memory.copy_frame(Frame(4), Frame(15));
    memory.zero_frame(Frame(4));
    same(
        &rt,
        &[memory.read_byte(0x3ffe), memory.read_byte(0x3fff)],
        &[0x67, 0x32],
    );
    same(
        &rt,
        &[memory.read_byte(0x4000), memory.read_byte(0xf000)],
        &[0x00, 0xab],
    );
    Ok(())
}

#[test]
fn holds_the_bytes_that_it_is_given(rt: HostRuntime) -> Result<(), Fail> {
    let mut bytes = vec![in rt.alloc(); 0u8; 65536]?;
    bytes[0x4000] = 0xab;
    let memory = Memory::of_bytes(bytes, 16);
    same(&rt, &memory.frames(), &16);
    same(
        &rt,
        &[memory.read_byte(0x3fff), memory.read_byte(0x4000)],
        &[0x00, 0xab],
    );
    Ok(())
}

/// How many frames a memory has, where all its bytes are there and 0.
fn blank(alloc: Global, frames: u32) -> Result<u32, MemoryFault> {
    let memory = Memory::new(alloc, frames)?;
    let bytes = memory.bytes();
    let whole = bytes.len() == memory.frames() as usize * FRAME_BYTES;
    let blank = whole && bytes.iter().all(|byte| *byte == 0);
    Ok(if blank { memory.frames() } else { 0 })
}

#[test]
fn has_16_to_4096_frames(rt: HostRuntime) {
    let sizes = [0, 15, 16, 4096, 4097].map(|frames| blank(rt.alloc(), frames));
    same(
        &rt,
        &sizes,
        &[
            Err(MemoryFault::BadSize),
            Err(MemoryFault::BadSize),
            Ok(16),
            Ok(4096),
            Err(MemoryFault::BadSize),
        ],
    );
}

#[test]
fn has_more_frames_where_it_is_wide(rt: HostRuntime) {
    let sizes = [15, 5000, 1048577].map(|frames| Memory::wide(rt.alloc(), frames).map(
        |memory| memory.frames(),
    ));
    same(
        &rt,
        &sizes,
        &[Err(WideFault::BadSize), Ok(5000), Err(WideFault::BadSize)],
    );
}

/// `rt try --test --fail-alloc N` refuses the Nth allocation of this test alone, and each is one of
/// `new`. A call that meets it answers NoMemory, the same call with memory then succeeds, and a line
/// is printed that says so.
#[test]
fn goes_on_after_want_of_memory(rt: HostRuntime) -> Result<(), Fail> {
    let first = Memory::new(rt.alloc(), 16).map(|memory| memory.frames());
    if first.is_err() {
        same(&rt, &first, &Err(MemoryFault::NoMemory));
        let again = Memory::new(rt.alloc(), 16).map(|memory| memory.frames());
        same(&rt, &again, &Ok(16));
        println!(rt; "NoMemory, and then a memory")?;
    }
    Ok(())
}
