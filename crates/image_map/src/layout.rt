//! Where the parts of a picture stand, and how large they are, in pixels.

ghost use Rattle.std.specs.Prelude.{◌≤◌};

/// The place of the first square.
const LEFT: u32 = 64;

/// The most rows of squares that there can be.
pub(crate) const MOST_ROWS: u32 = 131_073;

pub(crate) const TOP: u32 = 56;

/// How wide the legend and the bars are.
pub(crate) const PANEL: u32 = 540;

/// The height of the legend.
pub(crate) const LEGEND: u32 = 265;

/// The height of a process's bar, with its texts.
pub(crate) const BAR: u32 = 44;

/// How large squares are: fewer frames have larger ones.
#[derive(Clone, Copy)]
pub(crate) enum Scale {
    Large,
    Medium,
    Small,
    Tiny,
}

/// How a square looks, in pixels.
#[derive(Clone, Copy)]
pub(crate) struct Look {
    /// Its side, without the gap to the next.
    pub side: u32,
    /// The size of its letters.
    pub font: u32,
    /// The base line of its label, below its upper edge.
    pub label: u32,
    /// The base line of its label if a clause stands below the label.
    pub upper: u32,
    /// The base line of the clause that it fails.
    pub clause: u32,
    /// How far a tick is from the next.
    pub tick: u32,
}

impl Scale {
    pub(crate) fn of(frames: u32) -> Scale {
        if frames <= 32 {
            Scale::Large
        } else if frames <= 256 {
            Scale::Medium
        } else if frames <= 1024 {
            Scale::Small
        } else {
            Scale::Tiny
        }
    }

    /// How many squares a row has.
    pub(crate) fn columns(self) -> u32
        ensures { (8 ≤ result) × (result ≤ 64) }
    {
        match self {
            Scale::Large => 8,
            Scale::Medium => 16,
            Scale::Small => 32,
            Scale::Tiny => 64,
        }
    }

    /// How far a square is from the next.
    pub(crate) fn pitch(self) -> u32
        ensures { (15 ≤ result) × (result ≤ 48) }
    {
        match self {
            Scale::Large => 48,
            Scale::Medium => 42,
            Scale::Small => 26,
            Scale::Tiny => 15,
        }
    }

    pub(crate) fn look(self) -> Look
        ensures { (result.side ≤ 48) × (result.label ≤ 48) × (result.upper ≤ 48) × (result.clause ≤ 48)
            × (result.tick ≤ 3) }
    {
        match self {
            Scale::Large => Look {
                side: 46,
                font: 15,
                label: 28,
                upper: 21,
                clause: 39,
                tick: 3,
            },
            Scale::Medium => Look {
                side: 40,
                font: 13,
                label: 25,
                upper: 18,
                clause: 34,
                tick: 3,
            },
            Scale::Small => Look {
                side: 24,
                font: 9,
                label: 15,
                upper: 11,
                clause: 21,
                tick: 2,
            },
            Scale::Tiny => Look {
                side: 14,
                font: 6,
                label: 9,
                upper: 6,
                clause: 12,
                tick: 1,
            },
        }
    }

    /// How many rows so many frames fill, the last perhaps not whole.
    pub(crate) fn rows(self, frames: u32) -> u32
        requires { frames ≤ 1048576 }
        ensures { result ≤ MOST_ROWS }
    {
        match self {
            Scale::Large => (frames + 7) / 8,
            Scale::Medium => (frames + 15) / 16,
            Scale::Small => (frames + 31) / 32,
            Scale::Tiny => (frames + 63) / 64,
        }
    }

    /// The first frame of a row.
    pub(crate) fn first(self, row: u32) -> u32
        requires { row ≤ MOST_ROWS }
        ensures { result ≤ 8388672 }
    {
        match self {
            Scale::Large => 8 * row,
            Scale::Medium => 16 * row,
            Scale::Small => 32 * row,
            Scale::Tiny => 64 * row,
        }
    }

    /// The upper left corner of the square at a place of a line.
    pub(crate) fn corner(self, line: u32, column: u32) -> (u32, u32)
        requires { (line ≤ MOST_ROWS) × (column ≤ 64) }
        ensures { (result.0 ≤ 4096) × (result.1 ≤ 8388608) }
    {
        match self {
            Scale::Large => (LEFT + column * 48, TOP + line * 48),
            Scale::Medium => (LEFT + column * 42, TOP + line * 42),
            Scale::Small => (LEFT + column * 26, TOP + line * 26),
            Scale::Tiny => (LEFT + column * 15, TOP + line * 15),
        }
    }

    /// Where the legend and the bars begin.
    pub(crate) fn panel(self) -> u32
        ensures { result ≤ 4096 }
    {
        match self {
            Scale::Large => LEFT + 8 * 48 + 30,
            Scale::Medium => LEFT + 16 * 42 + 30,
            Scale::Small => LEFT + 32 * 26 + 30,
            Scale::Tiny => LEFT + 64 * 15 + 30,
        }
    }
}
