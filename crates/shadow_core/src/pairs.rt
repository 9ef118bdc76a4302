//! A core and shadow tables of it, each with its own owner: what an event and a fault are to both.

ghost use Rattle.std.specs.Prelude.{◌≡◌, ℕ, ◌+◌, ◌<◌, ◌≤◌, ◌^◌, ◌&&◌, ◌↔◌, true, false, nat_lt, is_some, IfSome, sum};
ghost use Rattle.page_words.specs.Addresses.{IsUserPage, page_number};
ghost use Rattle.table_walk.specs.declared.Access.TheVariants as access;
ghost use Rattle.address_space.specs.ByWalk.{finds_at};
ghost use Rattle.address_space.specs.Spaces.{byte_at, cell_or_fresh, slot_at};
ghost use Rattle.address_space.specs.Stays.{FramesStay, LooseStay};
ghost use Rattle.process_table.specs.Image.{StandsFor, image_of, memory_of};
ghost use Rattle.kernel_calls.specs.Cleaned.{is_dirty_at};
ghost use Rattle.kernel_calls.specs.Gone.{gone_by, gives_back};
ghost use Rattle.kernel_calls.specs.Machine.{answer, next, completes};
ghost use Rattle.kernel_calls.specs.Translations.{Ends, ended_by, is_all_of, IsGiven, WalkGives};
ghost use Rattle.kernel_calls.specs.Written.{WritesItsOwn};
ghost use Rattle.kernel_calls.specs.declared.translations.Ended.TheVariants as end;
ghost use Rattle.kernel_acts.specs.Touched.{touch_of, AreMarked};
ghost use Rattle.shadow_tables.specs.Shadow.{IsFixed, root_frame};
ghost use Rattle.shadow_core.specs.Paired.{IsShadowed, kept_at, left_by, lacks_frames, stop_of, handled_of, IsStopped, HasFilled, HasNothing, RootsStay};
ghost use Rattle.shadow_tables.specs.Needs.{frames_needed, IsWay, TablesStay};
ghost use Rattle.shadow_core.specs.Paired.{TranslationsAreRead, WalksAreTheCores, PoolIsOutOfReach, AccessesAreServed, AccessesAreKept};

use kernel_acts::touch;
use kernel_calls::{Core, Ended, Event, Reply};
use page_words::{Frame, Pid, Vaddr, in_user_range, page_of};
use process_table::Cause;
use shadow_tables::{ShadowTables, Translation, Way};
use table_walk::{Access, walk};

/// How a fault of a processor was handled.
#[derive(Clone, Copy, Debug, PartialEq, Eq)]
pub enum Handled {
    /// The translation is there. The processor completes the access.
    Filled,
    /// The fill needs more frames of the pool than are free. Nothing changed: the core makes no event either. The caller
    /// forgets all, or a process, and repeats the fault.
    Full,
    /// The access is the process's fault, with the processor's error code. The address is the highest one for any of
    /// more than 32 bits.
    Fault { addr: Vaddr, code: u8 },
    /// The core refuses the access.
    Refused(Cause),
}

/// Forgets what an event ended.
pub fn forget(shadow: &mut ShadowTables, ended: &Ended)
    ensures translations { shadow.new.translations ≡ left_by ended.now shadow.old.translations }
    ensures roots { (p : ℕ) → is_all_of ended.now p ≡ false → root_frame shadow.new p ≡ root_frame shadow.old p }
    ensures free { shadow.old.free ≤ shadow.new.free }
    ensures taken { ((p : ℕ) → is_all_of ended.now p ≡ false) → shadow.new.free ≡ shadow.old.free }
    ensures needed { (p at : ℕ) → IsUserPage at → is_all_of ended.now p ≡ false
        → frames_needed shadow.new p at ≡ frames_needed shadow.old p at }
    ensures tables { (p : ℕ) → is_all_of ended.now p ≡ false → TablesStay shadow.old p shadow.new }
    ensures gone { (p : ℕ) → is_all_of ended.now p ≡ true → HasNothing shadow.new p }
    ensures nothing { ended.now ≡ end.Nothing → shadow.new ≡ shadow.old }
    ensures fixed { IsFixed shadow.old shadow.new }
{
    shadow.walks();
    drop_ended(shadow, ended);
    shadow.walks();
}

/// Forgets what an event ended. No frame is taken for it.
#[tactic(auto, using(crate::proofs::Pairing::sum_cleared))]
fn drop_ended(shadow: &mut ShadowTables, ended: &Ended)
    ensures translations { shadow.new.translations ≡ left_by ended.now shadow.old.translations }
    ensures roots { (p : ℕ) → is_all_of ended.now p ≡ false → root_frame shadow.new p ≡ root_frame shadow.old p }
    ensures taken { sum shadow.new.taken ≤ sum shadow.old.taken }
    ensures pages { ((p : ℕ) → is_all_of ended.now p ≡ false) → shadow.new.free ≡ shadow.old.free }
    ensures needed { (p at : ℕ) → IsUserPage at → is_all_of ended.now p ≡ false
        → frames_needed shadow.new p at ≡ frames_needed shadow.old p at }
    ensures tables { (p : ℕ) → is_all_of ended.now p ≡ false → TablesStay shadow.old p shadow.new }
    ensures gone { (p : ℕ) → is_all_of ended.now p ≡ true → HasNothing shadow.new p }
    ensures nothing { ended.now ≡ end.Nothing → shadow.new ≡ shadow.old }
    ensures fixed { IsFixed shadow.old shadow.new }
{
    match ended {
        Ended::Nothing => {}
        Ended::Page { pid, page } => shadow.forget_page(*pid, *page),
        Ended::Pages { pid, first, second } => {
            shadow.forget_page(*pid, *first);
            shadow.forget_page(*pid, *second);
        }
        Ended::Space { pid } => shadow.forget_process(*pid),
    }
}

/// Carries out an event, forgets the translations that it ended, and returns these. Each processor that cached one
/// invalidates it before anything else is done. If the event ends a process, no processor may have its root. A fault or a
/// refusal changes nothing.
pub fn carry_out(core: &mut Core, shadow: &mut ShadowTables, event: &Event) -> (Reply, Ended)
    requires { IsShadowed core.old shadow.old }
    ensures kept { IsShadowed core.new shadow.new }
    ensures reply { result.0 ≡ answer core.old.state event.now }
    ensures ended { result.1 ≡ ended_by core.old event.now }
    ensures state { core.new.state ≡ next core.old.state event.now }
    ensures ends { Ends result.1 core.old core.new }
    ensures stay { FramesStay (gone_by core.old.state event.now) (memory_of core.old) (memory_of core.new) }
    ensures loose { gives_back event.now.call ≡ true → LooseStay (memory_of core.old) (memory_of core.new) }
    ensures writes { WritesItsOwn core.old core.new event.now }
    ensures left { shadow.new.translations ≡ left_by result.1 shadow.old.translations }
    ensures stands { StandsFor (image_of core.new) core.new.state }
    ensures roots { (p : ℕ) → is_all_of result.1 p ≡ false → root_frame shadow.new p ≡ root_frame shadow.old p }
    ensures tables { (p : ℕ) → is_all_of result.1 p ≡ false → TablesStay shadow.old p shadow.new }
    ensures gone { (p : ℕ) → is_all_of result.1 p ≡ true → HasNothing shadow.new p }
    ensures refused { completes result.0 ≡ false → (core.new ≡ core.old) × (shadow.new ≡ shadow.old) }
    ensures free { shadow.old.free ≤ shadow.new.free }
    ensures fixed { IsFixed shadow.old shadow.new }
{
    let told = core.step_ending(event);
    forget(shadow, &told.1);
    told
}

/// The frame that the walk finds for an access, if it finds one.
#[inline(always)]
fn found_by(core: &Core, pid: Pid, address: Vaddr, access: Access) -> Option<Frame>
    ensures finds { is_some result ≡ finds_at (memory_of core.now) pid access address }
    ensures walk { IfSome result (λ frame. (directory : ℕ)
        × WalkGives (memory_of core.now) pid directory address access frame) }
    ensures bound { IfSome result (λ frame. frame < 2 ^ 20) }
{
    core.stands();
    let directory = core.directory(pid)?;
    let memory = core.memory();
    let frames = memory.frames();
    let Ok(frame) = walk(memory, directory, address, access) else {
        return None;
    };
    prove!(frame.0 < frames);
    Some(frame)
}

/// The translation of a page that takes stores, to this frame: it allows writes if the page is dirty. A processor sets
/// dirty in the shadow only.
fn writable(core: &Core, pid: Pid, address: Vaddr, access: Access, frame: Frame) -> Translation
    requires user { IsUserPage (page_number address) }
    requires marked { AreMarked core.now.state.spaces (slot_at pid address) access }
    ensures { result ≡ record { frame = frame; write = is_dirty_at core.now.state (slot_at pid address) } }
{
    let write = access == Access::Write || core.is_dirty(pid, page_of(address));
    Translation { frame, write }
}

/// The translation of a page that was accessed: what the walk gives. It allows writes if the walk does and the page is
/// dirty.
fn translation_of(core: &Core, pid: Pid, address: Vaddr, by: Access) -> Translation
    requires finds { finds_at (memory_of core.now) pid by address ≡ true }
    requires marked { AreMarked core.now.state.spaces (slot_at pid address) by }
    requires user { IsUserPage (page_number address) }
    ensures given { IsGiven core.now (kept_at pid (page_number address) result) }
    ensures write { result.write ≡ (finds_at (memory_of core.now) pid access.Write address
        && is_dirty_at core.now.state (slot_at pid address)) }
    ensures bound { result.frame < 2 ^ 20 }
{
    core.stands();
    if let Some(frame) = found_by(core, pid, address, Access::Write) {
        return writable(core, pid, address, by, frame);
    }
    let Some(frame) = found_by(core, pid, address, Access::Read) else {
        unreachable!()
    };
    let write = false;
    Translation { frame, write }
}

/// Fills the translation of a page that was accessed, to which the tables go so far.
fn fill(core: &Core, shadow: &mut ShadowTables, pid: Pid, address: Vaddr, access: Access, way: Way)
    requires shadowed { IsShadowed core.now shadow.old }
    requires user { IsUserPage (page_number address) }
    requires finds { finds_at (memory_of core.now) pid access address ≡ true }
    requires marked { AreMarked core.now.state.spaces (slot_at pid address) access }
    requires way { IsWay shadow.old pid (page_number address) way }
    requires room { way.missing ≤ shadow.old.free }
    ensures kept { IsShadowed core.now shadow.new }
    ensures filled { HasFilled core.now shadow.old.translations shadow.new pid address access }
    ensures spent { shadow.old.free ≡ shadow.new.free + frames_needed shadow.old pid (page_number address) }
    ensures roots { RootsStay shadow.old pid shadow.new }
    ensures tables { (p : ℕ) → TablesStay shadow.old p shadow.new }
    ensures fixed { IsFixed shadow.old shadow.new }
{
    let translation = translation_of(core, pid, address, access);
    shadow.fill_along(
        pid,
        page_of(address),
        way,
        translation.frame,
        translation.write,
    );
    shadow.walks();
}

/// How far the tables for the page of a fault go. At an address outside the user range none are missing.
fn way_for(shadow: &ShadowTables, pid: Pid, address: u64) -> Way
    ensures lacks { lacks_frames shadow.now pid address ≡ nat_lt shadow.now.free result.missing }
    ensures way { IsUserPage (page_number address) → IsWay shadow.now pid (page_number address) result }
{
    let none = Way {
        missing: 0,
        table: 0,
    };
    if address >= 1 << 32 {
        return none;
    }
    let page = page_of(Vaddr(address as u32));
    if !in_user_range(page) {
        return none;
    }
    shadow.way_to(pid, page)
}

/// How a fault ends at a reply that stops the access; None at any other.
fn stop_of(reply: &Reply) -> Option<Handled>
    ensures { result ≡ stop_of reply.now }
{
    match reply {
        Reply::Fault { addr, code } => Some(Handled::Fault {
            addr: *addr,
            code: *code,
        }),
        Reply::Refused(cause) => Some(Handled::Refused(*cause)),
        _ => None,
    }
}

/// Handles a fault of a processor in user mode, at an address of 64 bits. It makes the access of the byte there as
/// `kernel_acts::touch` does, which changes no byte. Then it forgets what that ended, and fills the page's translation.
/// The second result is what ended: each processor that cached it invalidates it, and what it cached of the page that
/// faulted, before anything else is done.
///
/// Full comes first, exactly if the fill needs more frames than are free: nothing changes then. A fault of the process or
/// a refusal changes nothing either. Only the page's translation is entered, and only frames that it needs are taken. Each
/// table that there was stays where it is, so that cached words that lead to it lead there.
pub fn handle_fault(
    core: &mut Core,
    shadow: &mut ShadowTables,
    pid: Pid,
    address: u64,
    access: Access,
) -> (Handled, Ended)
    requires { IsShadowed core.old shadow.old }
    ensures kept { IsShadowed core.new shadow.new }
    ensures full { (result.0 ≡ Handled.Full) ↔ (lacks_frames shadow.old pid address ≡ true) }
    ensures unchanged { lacks_frames shadow.old pid address ≡ true
        → (result.1 ≡ end.Nothing) × (core.new ≡ core.old) × (shadow.new ≡ shadow.old) }
    ensures handled { lacks_frames shadow.old pid address ≡ false
        → result.0 ≡ handled_of (answer core.old.state (touch_of core.old.state pid address access)) }
    ensures ended { lacks_frames shadow.old pid address ≡ false
        → result.1 ≡ ended_by core.old (touch_of core.old.state pid address access) }
    ensures state { lacks_frames shadow.old pid address ≡ false
        → core.new.state ≡ next core.old.state (touch_of core.old.state pid address access) }
    ensures ends { Ends result.1 core.old core.new }
    ensures stay { lacks_frames shadow.old pid address ≡ false
        → FramesStay (gone_by core.old.state (touch_of core.old.state pid address access))
        (memory_of core.old) (memory_of core.new) }
    ensures bytes { (p at : ℕ) → byte_at core.new.state.spaces p at ≡ byte_at core.old.state.spaces p at }
    ensures stopped { IsStopped result.0 → (core.new ≡ core.old) × (shadow.new ≡ shadow.old) }
    ensures filled { result.0 ≡ Handled.Filled
        → HasFilled core.new (left_by result.1 shadow.old.translations) shadow.new pid address access }
    ensures spent { result.0 ≡ Handled.Filled
        → shadow.old.free ≡ shadow.new.free + frames_needed shadow.old pid (page_number address) }
    ensures stands { StandsFor (image_of core.new) core.new.state }
    ensures roots { RootsStay shadow.old pid shadow.new }
    ensures tables { (p : ℕ) → TablesStay shadow.old p shadow.new }
    ensures fixed { IsFixed shadow.old shadow.new }
{
    core.stands();
    let way = way_for(shadow, pid, address);
    if shadow.free_count() < way.missing {
        return (Handled::Full, Ended::Nothing);
    }
    let (reply, ended) = touch(core, pid, address, access);
    if let Some(handled) = stop_of(&reply) {
        return (handled, ended);
    }
    forget(shadow, &ended);
    fill(core, shadow, pid, Vaddr(address as u32), access, way);
    (Handled::Filled, ended)
}

/// Walks of the core read all that the shadow keeps. Where a processor's walk of the shadow reaches a page, the core's
/// walk gives the frame there, now. If the pool and the core's frames lie apart, that is no frame of the pool. An access that a processor completes through the shadow is served as by translations
/// that it kept from walks of the core. Such an access is its event, as
/// `kernel_calls::kept_translations_serve_accesses` states. To `shootdowns::shootdowns_make_events` it is a step of a
/// processor that first begins to keep what walks of the core read.
pub fn walks(core: &Core, shadow: &ShadowTables)
    requires { IsShadowed core.now shadow.now }
    ensures read { TranslationsAreRead (record { core = core.now; shadow = shadow.now }) }
    ensures walks { WalksAreTheCores (record { core = core.now; shadow = shadow.now }) }
    ensures apart { PoolIsOutOfReach (record { core = core.now; shadow = shadow.now }) }
    ensures accesses { AccessesAreServed (record { core = core.now; shadow = shadow.now }) }
    ensures steps { AccessesAreKept (record { core = core.now; shadow = shadow.now }) }
{
    shadow.walks();
    let _frames = core.frames();
}
