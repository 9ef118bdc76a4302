//! A core with shadow tables, which a processor in long mode walks in place of the core's own.
//!
//! The shadow holds some of the translations that the core's walks give now. An event ends some of these, and the
//! shadow forgets them. When the processor faults, the translation is filled if the core lets the access through.
#![tactic(auto)]

ghost use Rattle.std.specs.Prelude.{◌≡◌, ◌≢◌, ℕ, ◌+◌, ◌≤◌, ◌*◌, ◌↔◌, not, ◌==◌, true, false, None, length, replicate, slice_set};
ghost use Rattle.page_words.specs.FiniteMap as map;
ghost use Rattle.kernel_calls.specs.declared.translations.Ended.TheVariants as end;
ghost use Rattle.address_space.specs.Spaces.{byte_at};
ghost use Rattle.address_space.specs.Stays.{FramesStay, LooseStay};
ghost use Rattle.process_table.specs.Image.{StandsFor, image_of, memory_of};
ghost use Rattle.kernel_calls.specs.Gone.{gone_by, gives_back};
ghost use Rattle.kernel_calls.specs.Machine.{answer, next, completes};
ghost use Rattle.kernel_calls.specs.Translations.{Ends, ended_by, is_all_of};
ghost use Rattle.kernel_calls.specs.Written.{WritesItsOwn};
ghost use Rattle.kernel_acts.specs.Touched.{touch_of};
ghost use Rattle.page_words.specs.Addresses.{page_number};
ghost use Rattle.shadow_tables.specs.Needs.{frames_needed, TablesStay};
ghost use Rattle.shadow_tables.specs.Shadow.{IsFixed, root_frame};
ghost use Rattle.shadow_core.specs.Paired.{Paired, IsShadowed, left_by, HasFilled, HasNothing, IsStopped, handled_of, lacks_frames, TranslationsAreRead, WalksAreTheCores, PoolIsOutOfReach, AccessesAreServed, AccessesAreKept, RootsStay};

mod pairs;

use kernel_calls::{Core, Ended, Event, Reply};
use page_words::Pid;
pub use pairs::{Handled, carry_out, forget, handle_fault, walks};
use shadow_tables::{LEAST_FRAMES, ShadowTables};
use std::marker::Model;
use table_walk::Access;

/// A core, and shadow tables of it.
#[derive(Drop)]
pub struct ShadowedCore {
    core: Core,
    shadow: ShadowTables,
}

impl Model for ShadowedCore {
    ghost use Rattle.shadow_core.specs.Paired.{Paired, paired_code};

    ghost Value = { Paired };

    ghost coded = { paired_code };

    ghost use Rattle.shadow_core.specs.Paired.{IsShadowed};

    ghost view = { λ s. record { core = s.core; shadow = s.shadow } };

    ghost invariant = { λ s. IsShadowed s.core s.shadow };
}

impl ShadowedCore {
    /// A core and its shadow, which has no translation yet. The pool has `LEAST_FRAMES` frames for each processor that is
    /// to walk it: those that one instruction may need at the same time.
    pub fn new(core: Core, shadow: ShadowTables) -> ShadowedCore
        requires empty { shadow.translations ≡ map.empty }
        requires enough { 4096 * LEAST_FRAMES ≤ length shadow.bytes }
        ensures { result ≡ record { core = core; shadow = shadow } }
    {
        ShadowedCore { core, shadow }
    }

    /// The core.
    pub fn core(&self) -> &Core
        ensures { result.now ≡ self.now.core }
    {
        &self.core
    }

    /// The shadow, whose roots a processor loads.
    pub fn shadow(&self) -> &ShadowTables
        ensures { result.now ≡ self.now.shadow }
    {
        &self.shadow
    }

    /// Carries out an event, forgets the translations that it ended, and returns these. Each processor that cached one
    /// has to invalidate it before anything else is done. If the process is gone, no processor may use its root. A fault or
    /// a refusal changes nothing.
    pub fn event(&mut self, event: &Event) -> (Reply, Ended)
        ensures reply { result.0 ≡ answer self.old.core.state event.now }
        ensures ended { result.1 ≡ ended_by self.old.core event.now }
        ensures state { self.new.core.state ≡ next self.old.core.state event.now }
        ensures ends { Ends (ended_by self.old.core event.now) self.old.core self.new.core }
        ensures stay { FramesStay (gone_by self.old.core.state event.now)
            (memory_of self.old.core) (memory_of self.new.core) }
        ensures loose { gives_back event.now.call ≡ true
            → LooseStay (memory_of self.old.core) (memory_of self.new.core) }
        ensures writes { WritesItsOwn self.old.core self.new.core event.now }
        ensures left { self.new.shadow.translations
            ≡ left_by (ended_by self.old.core event.now) self.old.shadow.translations }
        ensures stands { StandsFor (image_of self.new.core) self.new.core.state }
        ensures roots { (p : ℕ) → is_all_of result.1 p ≡ false
            → root_frame self.new.shadow p ≡ root_frame self.old.shadow p }
        ensures tables { (p : ℕ) → is_all_of result.1 p ≡ false → TablesStay self.old.shadow p self.new.shadow }
        ensures gone { (p : ℕ) → is_all_of result.1 p ≡ true → HasNothing self.new.shadow p }
        ensures refused { completes result.0 ≡ false → self.new ≡ self.old }
        ensures fixed { IsFixed self.old.shadow self.new.shadow }
    {
        carry_out(&mut self.core, &mut self.shadow, event)
    }

    /// Handles a fault of a processor in user mode, at an address of 64 bits. It makes the access of the byte there as
    /// an event that changes no byte, forgets what that ended, and fills the page's translation. The second result is
    /// what ended: each processor that cached it invalidates it, and what it cached of the page that faulted, before
    /// anything else is done.
    ///
    /// Full if the fill needs more frames of the pool than are free: nothing changes then. The caller has all processors
    /// leave the roots that it frees, calls `forget_all` or `forget_process`, and repeats the fault. A fault of the
    /// process or a refusal changes nothing either. Each table that there was stays where it is.
    pub fn fault(&mut self, pid: Pid, address: u64, access: Access) -> (Handled, Ended)
        ensures full { (result.0 ≡ Handled.Full) ↔ (lacks_frames self.old.shadow pid address ≡ true) }
        ensures unchanged { lacks_frames self.old.shadow pid address ≡ true → (result.1 ≡ end.Nothing) × (self.new ≡ self.old) }
        ensures handled { lacks_frames self.old.shadow pid address ≡ false → result.0
            ≡ handled_of (answer self.old.core.state (touch_of self.old.core.state pid address access)) }
        ensures ended { lacks_frames self.old.shadow pid address ≡ false
            → result.1 ≡ ended_by self.old.core (touch_of self.old.core.state pid address access) }
        ensures state { lacks_frames self.old.shadow pid address ≡ false → self.new.core.state
            ≡ next self.old.core.state (touch_of self.old.core.state pid address access) }
        ensures ends { Ends result.1 self.old.core self.new.core }
        ensures stay { lacks_frames self.old.shadow pid address ≡ false
            → FramesStay (gone_by self.old.core.state (touch_of self.old.core.state pid address access))
            (memory_of self.old.core) (memory_of self.new.core) }
        ensures bytes { (p at : ℕ) → byte_at self.new.core.state.spaces p at
            ≡ byte_at self.old.core.state.spaces p at }
        ensures stopped { IsStopped result.0 → self.new ≡ self.old }
        ensures filled { result.0 ≡ Handled.Filled → HasFilled self.new.core
            (left_by result.1 self.old.shadow.translations) self.new.shadow pid address access }
        ensures spent { result.0 ≡ Handled.Filled → self.old.shadow.free
            ≡ self.new.shadow.free + frames_needed self.old.shadow pid (page_number address) }
        ensures stands { StandsFor (image_of self.new.core) self.new.core.state }
        ensures roots { RootsStay self.old.shadow pid self.new.shadow }
        ensures tables { (p : ℕ) → TablesStay self.old.shadow p self.new.shadow }
        ensures fixed { IsFixed self.old.shadow self.new.shadow }
    {
        handle_fault(&mut self.core, &mut self.shadow, pid, address, access)
    }

    /// Forgets all translations of a process. Its root and its tables become free: no processor may have the root.
    pub fn forget_process(&mut self, pid: Pid)
        ensures core { self.new.core ≡ self.old.core }
        ensures translations { self.new.shadow.translations
            ≡ map.retain_keys self.old.shadow.translations (λ slot. not (slot.pid == pid)) }
        ensures roots { self.new.shadow.roots ≡ slice_set self.old.shadow.roots pid None }
        ensures taken { self.new.shadow.taken ≡ slice_set self.old.shadow.taken pid 0 }
        ensures tables { (p : ℕ) → p ≢ pid → TablesStay self.old.shadow p self.new.shadow }
        ensures needed { (p at : ℕ) → p ≢ pid
            → frames_needed self.new.shadow p at ≡ frames_needed self.old.shadow p at }
        ensures fixed { IsFixed self.old.shadow self.new.shadow }
    {
        self.shadow.forget_process(pid);
    }

    /// Forgets all translations. All frames of the pool become free, so that no next fault is Full: no processor may have
    /// a root.
    pub fn forget_all(&mut self)
        ensures core { self.new.core ≡ self.old.core }
        ensures translations { self.new.shadow.translations ≡ map.empty }
        ensures roots { self.new.shadow.roots ≡ replicate 64 None }
        ensures free { 4096 * self.new.shadow.free ≡ length self.new.shadow.bytes }
        ensures room { (p address : ℕ) → lacks_frames self.new.shadow p address ≡ false }
        ensures fixed { IsFixed self.old.shadow self.new.shadow }
    {
        self.shadow.forget_all();
    }

    /// Walks of the core read all that the shadow keeps. Where a processor's walk of the shadow reaches a page, the
    /// core's walk gives the frame there, now. If the pool and the core's frames lie apart, that is no frame of the pool.
    /// An access that a processor completes through the shadow is served as by
    /// translations that it kept from walks of the core. Such an access is its event, as
    /// `kernel_calls::kept_translations_serve_accesses` states. To `shootdowns::shootdowns_make_events` it is a step of a
    /// processor that first begins to keep what walks of the core read.
    pub fn walks(&self)
        ensures read { TranslationsAreRead self.now }
        ensures walks { WalksAreTheCores self.now }
        ensures apart { PoolIsOutOfReach self.now }
        ensures accesses { AccessesAreServed self.now }
        ensures steps { AccessesAreKept self.now }
    {
        walks(&self.core, &self.shadow);
    }
}
