//! Points under the lock at which a call can be held, as by a test.

/// Where a call is.
#[derive(Clone, Copy, Debug, PartialEq, Eq)]
pub enum Point {
    /// The call is checked, and nothing has changed. Its result is decided after this point.
    Locked,
    /// The call is carried out, logged and published.
    Published,
}

/// Called at each point, under the lock. While it waits, the call waits with the lock held.
pub trait Gate {
    fn reach(&self, point: Point);
}

/// A gate that holds no call.
#[derive(Clone, Copy, Debug, PartialEq, Eq)]
pub struct OpenGate;

impl Gate for OpenGate {
    fn reach(&self, _point: Point) {}
}
