/// What workers pass before and after they look at a segment. It answers nothing and means
/// nothing: it exists so that a test can hold a worker.
pub trait Gate: Sync {
    /// Called by the worker of this number, from 0, before it looks at the segment of this number,
    /// from 0.
    fn before(&self, worker: u32, seg: u32);

    /// Called by the same worker once it has looked at that segment.
    fn after(&self, worker: u32, seg: u32);
}

/// A gate that does nothing.
#[derive(Clone, Copy, Debug)]
pub struct OpenGate;

impl Gate for OpenGate {
    fn before(&self, _worker: u32, _seg: u32) {}

    fn after(&self, _worker: u32, _seg: u32) {}
}
