//! Writing a snapshot.

ghost use Rattle.std.specs.Prelude.{◌≡◌, ◌+◌, ◌*◌, ◌≤◌, ◌^◌, ◌<◌, ◌++◌, length, take, drop, OnOk, OnErr};
ghost use Rattle.std.specs.List.{flat_map, splice};
ghost use Rattle.std.specs.Io.KnownBytes.{Appends};
ghost use Rattle.memory_image.specs.Spelling.{number, role_bytes};
ghost use Rattle.text_output.specs.Output.{AppendsFront};
ghost use Rattle.wide_image.specs.FirstBytes.{snapshot_magic};
ghost use Rattle.wide_image.specs.Layout.{frame_text, frames_text, frames_stored, stored};
ghost use Rattle.wide_image.specs.Offers.{offer_bytes};
ghost use Rattle.wide_image.specs.Wide.{HasWideFields, head_text, text};

use crate::frames::part_at;
use crate::offers::PendingOffer;
use alloc_table::Role;
use memory_image::{ImageRef, record_of, role_numbers, write_processes};
use std::io::Write;
use text_output::{WriteFailed, write_whole};

/// The four bytes that a snapshot begins with, as a number.
const MAGIC: u32 = 0x5732_436d;

/// The numbers that a snapshot begins with.
fn first_numbers(frames: u32) -> [u32; 3]
    ensures { flat_map number result ≡ snapshot_magic ++ (number 1 ++ number frames) }
{
    [MAGIC, 1, frames]
}

/// Two numbers, of offers and of stored frames.
fn counts(offers: u32, frames: u32) -> [u32; 2]
    ensures { flat_map number result ≡ number offers ++ number frames }
{
    [offers, frames]
}

/// The numbers of an offer.
fn offer_numbers(offer: &PendingOffer) -> [u32; 4]
    ensures { flat_map number result ≡ offer_bytes offer.now }
{
    [
        u32::from(offer.offerer.number()),
        offer.page.0,
        u32::from(offer.target.number()),
        u32::from(offer.write),
    ]
}

/// 0 for a free frame, which isn't stored, and 1 for any other.
pub(crate) fn stored_for(role: Role) -> u32
    ensures is { result ≡ stored role }
    ensures most { result ≤ 1 }
{
    match role {
        Role::Free => 0,
        Role::Reserved => 1,
        Role::Directory { .. } => 1,
        Role::Table { .. } => 1,
        Role::Page { .. } => 1,
    }
}

/// How many frames aren't free.
pub(crate) fn count_stored(roles: &[Role]) -> u32
    requires { length roles.now < 2 ^ 32 }
    ensures { result ≡ frames_stored roles.now }
{
    let mut count = 0;
    for place in 0..roles.len() {
        count += stored_for(roles[place]);
    }
    count
}

/// Writes what a snapshot begins with: the four bytes, the version and the number of frames.
fn write_front<W: Write>(frames: u32, writer: &mut W) -> Result<(), WriteFailed>
    ensures ok { OnOk result (Appends (W.contents writer.old) (W.contents writer.new)
        (snapshot_magic ++ (number 1 ++ number frames))) }
    ensures err { OnErr result (AppendsFront (W.contents writer.old) (W.contents writer.new)
        (snapshot_magic ++ (number 1 ++ number frames))) }
{
    write_whole(writer, &record_of(&first_numbers(frames)))
}

/// Writes how many offers and stored frames there are.
fn write_counts<W: Write>(offers: u32, frames: u32, writer: &mut W) -> Result<(), WriteFailed>
    ensures ok { OnOk result (Appends (W.contents writer.old) (W.contents writer.new)
        (number offers ++ number frames)) }
    ensures err { OnErr result (AppendsFront (W.contents writer.old) (W.contents writer.new)
        (number offers ++ number frames)) }
{
    write_whole(writer, &record_of(&counts(offers, frames)))
}

/// Writes the numbers before a frame's bytes.
fn write_head<W: Write>(frame: u32, role: Role, writer: &mut W) -> Result<(), WriteFailed>
    ensures ok { OnOk result (Appends (W.contents writer.old) (W.contents writer.new)
        (number frame ++ role_bytes role)) }
    ensures err { OnErr result (AppendsFront (W.contents writer.old) (W.contents writer.new)
        (number frame ++ role_bytes role)) }
{
    write_whole(writer, &record_of(&frame_numbers(frame, role)))
}

/// Writes the record of a frame that isn't free.
fn write_used<W: Write>(
    frame: u32,
    role: Role,
    part: &[u8],
    writer: &mut W,
) -> Result<(), WriteFailed>
    ensures ok { OnOk result (Appends (W.contents writer.old) (W.contents writer.new)
        (number frame ++ (role_bytes role ++ part.now))) }
    ensures err { OnErr result (AppendsFront (W.contents writer.old) (W.contents writer.new)
        (number frame ++ (role_bytes role ++ part.now))) }
{
    write_head(frame, role, writer)?;
    write_whole(writer, part)
}

fn write_offer<W: Write>(offer: &PendingOffer, writer: &mut W) -> Result<(), WriteFailed>
    ensures ok { OnOk result (Appends (W.contents writer.old) (W.contents writer.new) (offer_bytes offer.now)) }
    ensures err { OnErr result (AppendsFront (W.contents writer.old) (W.contents writer.new) (offer_bytes offer.now)) }
{
    write_whole(writer, &record_of(&offer_numbers(offer)))
}

fn write_offers<W: Write>(offers: &[PendingOffer], writer: &mut W) -> Result<(), WriteFailed>
    ensures ok { OnOk result (Appends (W.contents writer.old) (W.contents writer.new)
        (flat_map offer_bytes offers.now)) }
    ensures err { OnErr result (AppendsFront (W.contents writer.old) (W.contents writer.new)
        (flat_map offer_bytes offers.now)) }
{
    for place in 0..offers.len() {
        write_offer(&offers[place], writer)?;
    }
    Ok(())
}

/// The numbers before a frame's bytes: which frame it is, and its role.
fn frame_numbers(frame: u32, role: Role) -> [u32; 5]
    ensures { flat_map number result ≡ number frame ++ role_bytes role }
{
    let [kind, pid, slot, count] = role_numbers(role);
    [frame, kind, pid, slot, count]
}

/// Writes the record of a frame, of which a free one has none.
fn write_frame<W: Write>(
    frame: u32,
    role: Role,
    part: &[u8],
    writer: &mut W,
) -> Result<(), WriteFailed>
    ensures ok { OnOk result (Appends (W.contents writer.old) (W.contents writer.new)
        (frame_text frame role part.now)) }
    ensures err { OnErr result (AppendsFront (W.contents writer.old) (W.contents writer.new)
        (frame_text frame role part.now)) }
{
    match role {
        Role::Free => Ok(()),
        Role::Reserved => write_used(frame, role, part, writer),
        Role::Directory { .. } => write_used(frame, role, part, writer),
        Role::Table { .. } => write_used(frame, role, part, writer),
        Role::Page { .. } => write_used(frame, role, part, writer),
    }
}

fn write_frames<W: Write>(roles: &[Role], bytes: &[u8], writer: &mut W) -> Result<(), WriteFailed>
    requires few { length roles.now < 2 ^ 32 }
    requires size { length bytes.now ≡ 4096 * length roles.now }
    ensures ok { OnOk result (Appends (W.contents writer.old) (W.contents writer.new)
        (frames_text 0 roles.now bytes.now)) }
    ensures err { OnErr result (AppendsFront (W.contents writer.old) (W.contents writer.new)
        (frames_text 0 roles.now bytes.now)) }
{
    for place in 0..roles.len() {
        let part = part_at(bytes, 4096 * place);
        write_frame(place as u32, roles[place], part, writer)?;
    }
    Ok(())
}

/// How many offers there are.
fn count_of(offers: &[PendingOffer]) -> u32
    requires { length offers.now < 2 ^ 32 }
    ensures { result ≡ length offers.now }
{
    offers.len() as u32
}

/// Writes what a snapshot has before the records of its frames.
///
/// WriteFailed if a write fails; a front of it was written then.
pub(crate) fn write_wide_head<W: Write>(
    image: &ImageRef<'_>,
    offers: &[PendingOffer],
    writer: &mut W,
) -> Result<(), WriteFailed>
    requires { HasWideFields (record { image = image.now; offers = offers.now }) }
    ensures ok { OnOk result (Appends (W.contents writer.old) (W.contents writer.new)
        (head_text (record { image = image.now; offers = offers.now }))) }
    ensures err { OnErr result (AppendsFront (W.contents writer.old) (W.contents writer.new)
        (head_text (record { image = image.now; offers = offers.now }))) }
{
    let roles = image.roles();
    let stored = count_stored(roles);
    write_front(image.frames(), writer)?;
    write_processes(image.processes(), writer)?;
    write_counts(count_of(offers), stored, writer)?;
    write_offers(offers, writer)
}

/// Writes a snapshot, frame by frame: nothing of memory is copied. Free frames aren't written. `read_wide_image` reads
/// it back.
///
/// WriteFailed if a write fails; a front of the snapshot was written then.
pub fn write_wide_image<W: Write>(
    image: &ImageRef<'_>,
    offers: &[PendingOffer],
    writer: &mut W,
) -> Result<(), WriteFailed>
    requires { HasWideFields (record { image = image.now; offers = offers.now }) }
    ensures ok { OnOk result (Appends (W.contents writer.old) (W.contents writer.new)
        (text (record { image = image.now; offers = offers.now }))) }
    ensures err { OnErr result (AppendsFront (W.contents writer.old) (W.contents writer.new)
        (text (record { image = image.now; offers = offers.now }))) }
{
    write_wide_head(image, offers, writer)?;
    let roles = image.roles();
    write_frames(roles, image.bytes(), writer)
}

/// Copies bytes to a place of others.
fn copy_to(bytes: &mut [u8], place: usize, part: &[u8])
    requires { place + length part.now ≤ length bytes.old }
    ensures { bytes.new ≡ splice bytes.old place (place + length part.now) part.now }
{
    bytes[place..place + part.len()].copy_from_slice(part);
}

/// Copies the numbers and the bytes of a frame's record to the front of bytes.
pub(crate) fn copy_used(frame: u32, role: Role, part: &[u8], bytes: &mut [u8])
    requires part { length part.now ≡ 4096 }
    requires long { 4116 ≤ length bytes.old }
    ensures record { take 4116 bytes.new ≡ number frame ++ (role_bytes role ++ part.now) }
    ensures behind { drop 4116 bytes.new ≡ drop 4116 bytes.old }
{
    copy_to(bytes, 0, &record_of(&frame_numbers(frame, role)));
    copy_to(bytes, 20, part);
}
