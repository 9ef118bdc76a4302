//! What each frame of physical memory serves.
//!
//! A contract sees a frame table as the list of roles, one a frame: a map from frame to role. Frames
//! come from a ledger of the free ones.
#![tactic(auto, unfolding(crate::specs::Roles::opening_roles))]

ghost use Rattle.std.specs.Prelude.{◌≡◌, ◌+◌, ◌<◌, ◌≤◌, ◌↔◌, List, IsTrue, IfOk, IfErr, IsErrOf, IfSome, IsNone, Some, length, slice_get, false, if◌then◌else◌};
ghost use Rattle.page_words.specs.FiniteSet as set;
ghost use Rattle.frame_ledger.specs.FreeFrames.{with_free};
ghost use Rattle.alloc_table.specs.Free.{free_by};
ghost use Rattle.alloc_table.specs.Roles.{is_free, CanBeTaken, IsTaken, IsPageBelow, IsHeld, IsInUse, IsReleased, released, free_frames, frames_weight, opening_roles};
ghost use Rattle.alloc_table.specs.Weights.{EachPageHeld, TakingAddsTheRole, HoldingAddsOne, ReleasingTakesOne, FreeOrWeighed};

use frame_ledger::Ledger;
use page_words::{
    Frame, MAX_FRAMES, MIN_FRAMES, MachineFault, Pid, WIDE_FRAMES, WideFault, is_frame_count,
};
use std::alloc::Global;
use std::marker::Model;

/// What a frame serves.
#[derive(Clone, Copy, Debug, PartialEq, Eq)]
pub enum Role {
    /// Nothing, and it is never free: frame 0.
    Reserved,
    /// Nothing: it can be taken.
    Free,
    /// The page directory of a process.
    Directory {
        /// The process.
        pid: Pid,
    },
    /// A page table of a process.
    Table {
        /// The process.
        pid: Pid,
        /// The directory slot that leads to the table.
        slot: u32,
    },
    /// A page of one process, or of several.
    Page {
        /// How many hold it: at least 1.
        count: u32,
    },
}

/// The roles of all frames.
#[derive(Debug, Drop)]
pub struct FrameTable {
    ledger: Ledger,
    roles: Vec<Role>,
}

impl Model for FrameTable {
    ghost use Rattle.std.specs.Prelude.{List};
    ghost use Rattle.alloc_table.specs.declared.Role.{Role};
    ghost use Rattle.alloc_table.specs.Invariant.{IsFrameTable};

    ghost Value = { List Role };

    ghost view = { λ table. table.roles.items };

    ghost invariant = { λ table. IsFrameTable table.ledger table.roles.items };
}

fn role_at(roles: &[Role], frame: Frame) -> Role
    requires { frame < length roles.now }
    ensures { slice_get roles.now frame ≡ Some result }
{
    let index = frame.0 as usize;
    roles[index]
}

fn after_release(role: Role) -> Role
    ensures { result ≡ released role }
{
    match role {
        Role::Page { count } if count > 1 => Role::Page { count: count - 1 },
        _ => Role::Free,
    }
}

/// Puts a frame back where its role is Free.
fn put_back_free(ledger: &mut Ledger, frame: Frame, role: Role)
    requires not_reserved { 1 ≤ frame }
    requires within { frame < ledger.old.frames }
    requires in_use { set.contains ledger.old.free frame ≡ false }
    ensures { ledger.new ≡ (if is_free role then with_free ledger.old frame else ledger.old) }
{
    if role == Role::Free {
        ledger.put_back(frame);
    }
}

/// The ledger of the frames whose role is Free, of which frame 0 is none.
fn ledger_of(alloc: Global, roles: &[Role]) -> Result<Ledger, MachineFault>
    requires fewest { MIN_FRAMES ≤ length roles.now }
    requires most { length roles.now ≤ WIDE_FRAMES }
    requires reserved { slice_get roles.now 0 ≡ Some Role.Reserved }
    ensures ledger { IfOk result (λ ledger. ledger ≡ free_by roles.now) }
    ensures fault { IfErr result (λ fault. fault ≡ MachineFault.NoMemory) }
{
    let frames = roles.len() as u32;
    let mut ledger = Ledger::full(alloc, frames)?;
    for frame in (1..frames).rev() {
        put_back_free(&mut ledger, Frame(frame), roles[frame as usize]);
    }
    Ok(ledger)
}

impl FrameTable {
    /// A table of the frames 0 to `frames` - 1: frame 0 is reserved, and all others are free.
    ///
    /// BadSize where `frames` is outside 16 to 4,096, and else NoMemory where there is no memory.
    pub fn new(alloc: Global, frames: u32) -> Result<FrameTable, MachineFault>
        ensures roles { IfOk result (λ table. table ≡ opening_roles frames) }
        ensures bad_size { IsErrOf result MachineFault.BadSize ↔ (MIN_FRAMES ≤ frames → frames ≤ MAX_FRAMES → ⊥) }
    {
        if !is_frame_count(frames) {
            return Err(MachineFault::BadSize);
        }
        Ok(FrameTable::wide(alloc, frames)?)
    }

    /// As `new`, of up to 1,048,576 frames: BadSize if `frames` is outside 16 to 1,048,576.
    pub fn wide(alloc: Global, frames: u32) -> Result<FrameTable, WideFault>
        ensures roles { IfOk result (λ table. table ≡ opening_roles frames) }
        ensures bad_size { IsErrOf result WideFault.BadSize ↔ (MIN_FRAMES ≤ frames → frames ≤ WIDE_FRAMES → ⊥) }
    {
        let ledger = Ledger::wide(alloc, frames)?;
        match vec![in alloc; Role::Free; frames as usize] {
            Ok(mut roles) => {
                roles[0] = Role::Reserved;
                Ok(FrameTable { ledger, roles })
            }
            Err(_) => Err(WideFault::NoMemory),
        }
    }

    /// A table of frames with these roles, 16 to 1,048,576 of them, of which the first is reserved and each page has a
    /// holder.
    ///
    /// NoMemory where there is no memory for the ledger of the free ones.
    pub fn of_roles(alloc: Global, roles: Vec<Role>) -> Result<FrameTable, MachineFault>
        requires fewest { MIN_FRAMES ≤ length roles.items }
        requires most { length roles.items ≤ WIDE_FRAMES }
        requires reserved { slice_get roles.items 0 ≡ Some Role.Reserved }
        requires held { EachPageHeld roles.items }
        ensures roles { IfOk result (λ table. table ≡ roles.items) }
        ensures fault { IfErr result (λ fault. fault ≡ MachineFault.NoMemory) }
    {
        let ledger = ledger_of(alloc, roles.as_slice())?;
        Ok(FrameTable { ledger, roles })
    }

    /// Gives a free frame, whichever it is, a role: a directory, a table, or a page with one holder.
    /// None exactly where no frame is free.
    pub fn take(&mut self, role: Role) -> Option<Frame>
        requires { CanBeTaken role }
        ensures found { IfSome result (λ frame. IsTaken self.old frame role self.new) }
        ensures none { IsNone result ↔ (free_frames self.old ≡ 0) }
        ensures kept { IsNone result → (self.new ≡ self.old) }
    {
        let free = self.ledger.take()?;
        self.roles[free.0 as usize] = role;
        Some(free)
    }

    /// Counts one holder more of a page, which has fewer than 4,294,967,295.
    pub fn hold(&mut self, frame: Frame)
        requires { IsPageBelow self.old frame 4294967295 }
        ensures { IsHeld self.old frame self.new }
    {
        if let Role::Page { count } = role_at(&self.roles, frame) {
            self.roles[frame.0 as usize] = Role::Page { count: count + 1 };
        }
    }

    /// Counts one holder of a page less, and frees the page if none is left. Frees a directory or a table. Returns
    /// whether the frame is free now.
    pub fn release(&mut self, frame: Frame) -> bool
        requires { IsInUse self.old frame }
        ensures role { IsReleased self.old frame self.new }
        ensures freed { IsTrue result ↔ (slice_get self.new frame ≡ Some Role.Free) }
    {
        let was = role_at(&self.roles, frame);
        let role = after_release(was);
        self.roles[frame.0 as usize] = role;
        let freed = role == Role::Free;
        if freed {
            self.ledger.put_back(frame);
        }
        freed
    }

    /// The role of a frame, one of 0 to n - 1.
    pub fn role(&self, frame: Frame) -> Role
        requires { frame < length self.now }
        ensures { slice_get self.now frame ≡ Some result }
    {
        role_at(&self.roles, frame)
    }

    /// The roles of all frames, by number.
    pub fn roles(&self) -> &[Role]
        ensures { result.now ≡ self.now }
    {
        self.roles.as_slice()
    }

    /// How many frames are free.
    pub fn free_count(&self) -> u32
        ensures { result ≡ free_frames self.now }
    {
        self.ledger.free_count()
    }

    /// There are 16 to 1,048,576 frames, of which frame 0 is reserved. With what the frames in use weigh,
    /// the free ones are at least as many as there are frames.
    pub fn within(&self)
        ensures fewest { MIN_FRAMES ≤ length self.now }
        ensures most { length self.now ≤ WIDE_FRAMES }
        ensures reserved { slice_get self.now 0 ≡ Some Role.Reserved }
        ensures weighed { length self.now ≤ free_frames self.now + frames_weight self.now }
    {
        self.ledger.within();
        let _ = &self.roles;
    }
}

/// States what each call leaves of the sum of weights. A free frame weighs 0, a page as much as it has holders, and
/// every other frame 1. If each page has a holder, the free frames and the weights together are at least as many as the
/// frames.
pub fn weights_add_up()
    ensures taken { TakingAddsTheRole }
    ensures held { HoldingAddsOne }
    ensures released { ReleasingTakesOne }
    ensures covered { FreeOrWeighed }
{}
