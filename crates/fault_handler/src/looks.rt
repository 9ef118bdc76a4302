//! What the places of an access's pages say.

ghost use Rattle.std.specs.Prelude.{◌≡◌, ◌≤◌, IfSome, true, option_and_then};
ghost use Rattle.fault_handler.specs.Below.{page_number, IsUserPage, place_in, place_at, is_live};
ghost use Rattle.fault_handler.specs.Looks.{look_of, look_behind, barred, open_one_region, need_by};

use crate::plans::{Look, PageStep};
use address_space::Place;
use page_words::{Page, Pid, Vaddr, page_of, slot_of, start_of};
use process_table::Processes;
use table_walk::Access;

/// Returns what the place of the page with a byte of an access says about the access.
#[inline(always)]
pub fn look_at(processes: &Processes, pid: Pid, access: Access, byte: Vaddr, place: &Place) -> Look
    requires live { is_live processes.now.state pid ≡ true }
    requires user { IsUserPage (page_number byte) }
    requires place { place.now ≡ place_in processes.now.directories processes.now.bytes pid (page_number byte) }
    ensures look { result ≡ look_of processes.now pid access byte }
    ensures few { result.need ≤ 2 }
{
    processes.tells(pid, page_of(byte), place);
    match place.found() {
        None => Look {
            byte,
            step: PageStep::MapZero,
            read_only: false,
            need: place.need(),
        },
        Some(found) => Look {
            byte,
            step: if access == Access::Write && found.entry.lazy {
                PageStep::Fill
            } else {
                PageStep::Complete
            },
            read_only: !found.entry.write,
            need: 0,
        },
    }
}

/// Returns what the place of an access's second page says, if it has one.
#[inline(always)]
pub fn look_behind(
    processes: &Processes,
    pid: Pid,
    access: Access,
    second: Option<Page>,
    place: &Option<Place>,
) -> Option<Look>
    requires live { is_live processes.now.state pid ≡ true }
    requires user { IfSome second IsUserPage }
    requires place { place.now ≡ option_and_then (place_at processes.now pid) second }
    ensures look { result ≡ look_behind processes.now pid access second }
    ensures few { IfSome result (λ look. look.need ≤ 2) }
{
    let byte = start_of(second?);
    Some(look_at(processes, pid, access, byte, &place.unwrap()))
}

/// The first byte that an access may not have.
#[inline(always)]
pub fn barred(access: Access, first: &Look, second: &Option<Look>) -> Option<Vaddr>
    ensures { result ≡ barred access first.now second.now }
{
    if access == Access::Read {
        return None;
    }
    match second {
        _ if first.read_only => Some(first.byte),
        Some(second) if second.read_only => Some(second.byte),
        _ => None,
    }
}

/// Whether two pages are not mapped, and lie in one region of 1,024 pages.
fn open_one_region(first: &Look, second: &Look) -> bool
    ensures { result ≡ open_one_region first.now second.now }
{
    first.need > 0
        && second.need > 0
        && slot_of(page_of(first.byte)) == slot_of(page_of(second.byte))
}

/// What the pages of an access need together.
#[inline(always)]
pub fn need_by(first: &Look, second: &Option<Look>) -> u32
    requires first { first.now.need ≤ 2 }
    requires second { IfSome second.now (λ look. look.need ≤ 2) }
    ensures need { result ≡ need_by first.now second.now }
    ensures few { result ≤ 4 }
{
    match second {
        None => first.need,
        Some(second) if open_one_region(first, second) => first.need + 1,
        Some(second) => first.need + second.need,
    }
}
