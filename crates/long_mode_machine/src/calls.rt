//! The calls of a core with shadow tables are moves: what each rule of a move asks, a call's clauses give.

ghost use Rattle.std.specs.Prelude.{◌≡◌, true, false};
ghost use Rattle.page_words.specs.Addresses.{page_number};
ghost use Rattle.page_words.specs.FiniteMap as map;
ghost use Rattle.kernel_acts.specs.Touched.{touch_of};
ghost use Rattle.kernel_calls.specs.Machine.{answer};
ghost use Rattle.kernel_calls.specs.Translations.{ended_by, is_all_of};
ghost use Rattle.shadow_core.specs.Paired.{IsShadowed, IsServed, IsStopped, handled_of, lacks_frames};
ghost use Rattle.shadow_core.specs.declared.pairs.Handled.TheVariants.{Filled};
ghost use Rattle.shadow_tables.specs.Shadow.{IsFixed};
ghost use Rattle.shootdowns.specs.Windows.{Begins};
ghost use Rattle.long_mode_machine.specs.LongMode.{IsAligned, IsLeft, HasForgotten};
ghost use Rattle.long_mode_machine.specs.Moves.{FillsOne};

use kernel_calls::{Core, Ended, Event, Reply};
use page_words::Pid;
use shadow_core::{Handled, carry_out, forget, handle_fault};
use shadow_tables::ShadowTables;
use table_walk::Access;

/// Carries out an event, as `carry_out` does. The core's part is the move `begun`, the tables' part `forgot`, if no
/// processor has a root that is freed.
pub fn call_moves(core: &mut Core, shadow: &mut ShadowTables, event: &Event) -> (Reply, Ended)
    requires shadowed { IsShadowed core.old shadow.old }
    requires aligned { IsAligned shadow.old }
    ensures kept { IsShadowed core.new shadow.new }
    ensures begins { Begins core.old event.now result.0 core.new }
    ensures ended { result.1 ≡ ended_by core.old event.now }
    ensures left { IsLeft shadow.old (is_all_of result.1) shadow.new }
    ensures forgotten { HasForgotten result.1 shadow.new }
    ensures fixed { IsFixed shadow.old shadow.new }
{
    let told = carry_out(core, shadow, event);
    core.stands();
    shadow.walks();
    told
}

/// Handles a page fault, as `handle_fault` does. Unless the tables are full, the core's part is the move `begun`, by the
/// event of a touch. If it completes, the tables' part is `filled`; otherwise nothing changes, which is `forgot`.
pub fn fault_moves(
    core: &mut Core,
    shadow: &mut ShadowTables,
    pid: Pid,
    address: u64,
    access: Access,
) -> (Handled, Ended)
    requires shadowed { IsShadowed core.old shadow.old }
    requires aligned { IsAligned shadow.old }
    ensures kept { IsShadowed core.new shadow.new }
    ensures begins { lacks_frames shadow.old pid address ≡ false
        → Begins core.old (touch_of core.old.state pid address access)
        (answer core.old.state (touch_of core.old.state pid address access)) core.new }
    ensures handled { lacks_frames shadow.old pid address ≡ false
        → result.0 ≡ handled_of (answer core.old.state (touch_of core.old.state pid address access)) }
    ensures ended { lacks_frames shadow.old pid address ≡ false
        → result.1 ≡ ended_by core.old (touch_of core.old.state pid address access) }
    ensures served { result.0 ≡ Filled
        → IsServed (record { core = core.new; shadow = shadow.new }) pid address access }
    ensures stopped { IsStopped result.0 → (core.new ≡ core.old) × (shadow.new ≡ shadow.old) }
    ensures left { IsStopped result.0 → IsLeft shadow.old (is_all_of result.1) shadow.new }
    ensures forgotten { IsStopped result.0 → HasForgotten result.1 shadow.new }
    ensures full { lacks_frames shadow.old pid address ≡ true → (core.new ≡ core.old) × (shadow.new ≡ shadow.old) }
    ensures fixed { IsFixed shadow.old shadow.new }
    ensures filled { result.0 ≡ Filled
        → FillsOne result.1 core.new shadow.old pid (page_number address) shadow.new }
{
    let handled = handle_fault(core, shadow, pid, address, access);
    core.stands();
    shadow.walks();
    handled
}

/// Forgets the translations that are named, as `forget` does. After a step of the core that ended them, that is the move
/// `forgot`. At any other time it is `made_room`. No processor has a root that is freed.
pub fn forget_moves(shadow: &mut ShadowTables, ended: &Ended)
    requires aligned { IsAligned shadow.old }
    ensures left { IsLeft shadow.old (is_all_of ended.now) shadow.new }
    ensures forgotten { HasForgotten ended.now shadow.new }
    ensures fixed { IsFixed shadow.old shadow.new }
{
    forget(shadow, ended);
    shadow.walks();
}

/// Forgets all translations, which is the move `made_room`, if no processor has a root.
pub fn forget_all_moves(shadow: &mut ShadowTables)
    requires aligned { IsAligned shadow.old }
    ensures left { IsLeft shadow.old (λ p. true) shadow.new }
    ensures none { shadow.new.translations ≡ map.empty }
    ensures fixed { IsFixed shadow.old shadow.new }
{
    shadow.forget_all();
    shadow.walks();
}
