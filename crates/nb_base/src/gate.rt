//! Where a worker may be held, to look at it.

/// A point in the handling of a message.
#[derive(Clone, Copy, Debug, PartialEq, Eq)]
pub enum Point {
    /// Right after a look that found the message new.
    AfterLook,
    /// Right after the evaluation.
    BeforeSettle,
}

/// What a worker passes at its points. It changes nothing that a contract sees.
pub trait Gate {
    /// Worker `w` passes a point.
    fn pass(&self, w: u32, point: Point);
}

/// A gate that holds nobody.
#[derive(Clone, Copy, Debug)]
pub struct OpenGate;

impl Gate for OpenGate {
    fn pass(&self, _w: u32, _point: Point) {}
}
