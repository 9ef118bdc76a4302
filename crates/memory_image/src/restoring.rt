//! Making a core of an image.

ghost use Rattle.std.specs.Prelude.{◌≡◌, ℕ, ◌<◌, Some, None, IfOk, length, slice_get, slice_index_or};
ghost use Rattle.page_words.specs.FiniteMap as map;
ghost use Rattle.memory_image.specs.Image.{directory_from, IsWideImage};
ghost use Rattle.memory_image.specs.Machine.{IsImageOf};
ghost use Rattle.memory_image.specs.Restored.{account_from, image_with};
ghost use Rattle.memory_image.specs.Sound.{IsSound, StandsFor};

use crate::faults::NoMemory;
use crate::images::Image;
use crate::processes::Process;
use alloc_table::Role;
use kernel_calls::Core;
use page_words::Frame;
use quota_tree::Account;
use std::alloc::Global;

/// What the record of a process says of it, apart from its directory.
fn account_of(process: Option<Process>) -> Option<Account>
    ensures { result ≡ account_from process }
{
    let process = process?;
    Some(Account {
        parent: process.parent,
        quota: process.quota,
        used: process.used,
        given: process.given,
    })
}

/// The directory of a process.
fn directory_of(process: Option<Process>) -> Option<Frame>
    ensures { result ≡ directory_from process }
{
    let process = process?;
    Some(process.directory)
}

/// What the records of all processes say of them, apart from their directories.
fn accounts_of(processes: &[Option<Process>; 64]) -> [Option<Account>; 64]
    ensures length { length result ≡ 64 }
    ensures each { (p : ℕ) → p < 64 → slice_get result p ≡ Some (account_from (slice_index_or processes.now p None)) }
{
    let mut accounts = [None; 64];
    for place in 0..64 {
        accounts[place] = account_of(processes[place]);
    }
    accounts
}

/// The directories of all processes.
fn directories_of(processes: &[Option<Process>; 64]) -> [Option<Frame>; 64]
    ensures length { length result ≡ 64 }
    ensures each { (p : ℕ) → p < 64 → slice_get result p ≡ Some (directory_from (slice_index_or processes.now p None)) }
{
    let mut directories = [None; 64];
    for place in 0..64 {
        directories[place] = directory_of(processes[place]);
    }
    directories
}

/// Makes the core that records, roles and bytes represent: those of a sound image with the words of version 2, of up to
/// 1,048,576 frames. No offer is pending. The bytes and the roles become the core's.
///
/// NoMemory if there is no memory for what a core keeps in addition to them.
pub fn core_of(
    alloc: Global,
    processes: &[Option<Process>; 64],
    roles: Vec<Role>,
    bytes: Vec<u8>,
) -> Result<Core, NoMemory>
    requires fields { IsWideImage (image_with processes.now roles.items bytes.items) }
    requires sound { IsSound (image_with processes.now roles.items bytes.items) }
    ensures shows { IfOk result (λ core. IsImageOf core (image_with processes.now roles.items bytes.items)) }
    ensures stands { IfOk result (λ core. StandsFor (image_with processes.now roles.items bytes.items) core.state) }
    ensures offers { IfOk result (λ core. core.state.offers ≡ map.empty) }
{
    let accounts = accounts_of(processes);
    let directories = directories_of(processes);
    match Core::of_image(alloc, directories, &accounts, bytes, roles) {
        Ok(core) => Ok(core),
        Err(_) => Err(NoMemory),
    }
}

impl Image {
    /// Makes the core that a sound image with the words of version 2 represents. No offer is pending. The image's bytes
    /// and roles become the core's.
    ///
    /// NoMemory if there is no memory for what a core keeps in addition to them.
    pub fn into_core(self, alloc: Global) -> Result<Core, NoMemory>
        requires version { self.version ≡ 2 }
        requires sound { IsSound self }
        ensures shows { IfOk result (λ core. IsImageOf core self) }
        ensures stands { IfOk result (λ core. StandsFor self core.state) }
        ensures offers { IfOk result (λ core. core.state.offers ≡ map.empty) }
    {
        let (processes, roles, bytes) = self.into_parts();
        core_of(alloc, &processes, roles, bytes)
    }
}
