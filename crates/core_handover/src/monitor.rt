//! Monitors: readers of what is published, who need no core.

ghost use Rattle.std.specs.Prelude.{◌≡◌, false};
ghost use Rattle.std.specs.Arc.{arc_value};
ghost use Rattle.core_handover.specs.Histories.{Begins};

use crate::page::Page;
use crate::room::Room;
use std::alloc::Global;
use std::marker::Model;
use std::sync::Arc;

/// One thread's handle, with the newest page that it has read. Contracts see the history that the page reports on.
#[derive(Drop)]
pub struct Monitor {
    room: Arc<Room, Global>,
    page: Page,
}

impl Model for Monitor {
    ghost use Rattle.std.specs.Prelude.{◌≡◌};
    ghost use Rattle.std.specs.Arc.{arc_value};
    ghost use Rattle.core_handover.specs.Histories.{Known};

    ghost Value = { Known };

    ghost view = { λ m. m.page };

    ghost invariant = { λ m. (arc_value m.room).lock.book ≡ m.page.book };
}

impl Monitor {
    pub(crate) fn new(room: Arc<Room, Global>, page: Page) -> Monitor
        requires { (arc_value room).lock.book ≡ page.book }
        ensures { result ≡ page }
    {
        Monitor { room, page }
    }

    /// Reads what is published. What it has then never goes back. False if others came between at each of many looks;
    /// it has then what it had.
    pub fn read(&mut self) -> bool
        ensures later { (self.new.book ≡ self.old.book) × Begins self.new.log self.old.log }
        ensures none { result ≡ false → self.new ≡ self.old }
    {
        let Some(page) = self.room.page() else {
            return false;
        };
        if self.page.front().begins(page.front()) {
            self.page = page;
        }
        true
    }

    /// The newest page that it has read.
    pub fn page(&self) -> &Page
        ensures { result.now ≡ self.now }
    {
        &self.page
    }
}
