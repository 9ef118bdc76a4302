//! The film of a script, for the page that runs scripts in a browser: bytes of a script in, its rows out.
//!
//! It allocates with `rattle_alloc`, and frees all of it before it ends.
#![tactic(auto)]

ghost use Rattle.std.specs.Prelude.{◌≡◌, ◌≢◌, ℕ, ◌↔◌, ◌≤◌, ◌<◌, List, length, take, drop};
ghost use Rattle.script_film.specs.Film.{IsFilm};
ghost use Rattle.script_film.specs.declared.ends.End.{End};

use script_film::{ScriptFault, film_of};
use std::alloc::Global;

/// The film was written.
const DONE: u32 = 0;
/// No machine has so many frames.
const BAD_SIZE: u32 = 1;
/// Memory ran out.
const NO_MEMORY: u32 = 2;
/// The script is too long.
const TOO_LONG: u32 = 3;
/// There is too little room for the rows.
const TOO_SHORT: u32 = 4;

/// Copies bytes to the front of others.
fn copy_to_front(from: &[u8], to: &mut [u8])
    requires { length from.now ≤ length to.old }
    ensures front { take (length from.now) to.new ≡ from.now }
    ensures behind { drop (length from.now) to.new ≡ drop (length from.now) to.old }
{
    to[..from.len()].copy_from_slice(from);
}

/// Writes the rows of the film of a script (specs/Rows.antt of script_film), on a machine of so many frames, at the
/// start of `rows`, and their length to `size`. Returns 0. Otherwise `rows` stays. 1: the number of frames is not 16 to
/// 4,096. 2: memory ran out. 3: the script has more than 16,777,216 bytes. 4: the film's rows are longer than `rows`;
/// `size` is then their length.
#[unsafe(no_mangle)]
pub extern "C" fn tower_film(
    alloc: Global,
    frames: u32,
    script: &[u8],
    rows: &mut [u8],
    size: &mut usize,
) -> u32
    ensures film { result ≡ 0 → (end : End) × IsFilm frames script.now (take size.new rows.new) end }
    ensures behind { result ≡ 0 → drop size.new rows.new ≡ drop size.new rows.old }
    ensures statuses { result ≤ 4 }
    ensures size { result ≡ 1 ↔ (16 ≤ frames → frames ≤ 4096 → ⊥) }
    ensures long { result ≡ 3 ↔ (16 ≤ frames) × (frames ≤ 4096) × (16777216 < length script.now) }
    ensures fits { result ≡ 0 → size.new ≤ length rows.old }
    ensures short { result ≡ 4 → length rows.old < size.new }
    ensures needed { result ≡ 4 → (film : List ℕ) × (end : End) × IsFilm frames script.now film end
        × (length film ≡ size.new) }
    ensures otherwise { result ≢ 0 → rows.new ≡ rows.old }
{
    let film = match film_of(alloc, frames, script) {
        Ok(film) => film,
        Err(ScriptFault::BadSize) => return BAD_SIZE,
        Err(ScriptFault::TooLong) => return TOO_LONG,
        Err(_) => return NO_MEMORY,
    };
    *size = film.rows.len();
    if rows.len() < *size {
        return TOO_SHORT;
    }
    copy_to_front(film.rows.as_slice(), rows);
    DONE
}
