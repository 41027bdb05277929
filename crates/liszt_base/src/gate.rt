/// A place that each worker comes by, where a test can hold it.
pub trait Gate {
    /// Worker `worker` is about to begin on batch or phase `batch`.
    fn at(&self, worker: u32, batch: u64);
}

/// A gate that holds nobody.
#[derive(Clone, Copy, Debug)]
pub struct OpenGate;

impl Gate for OpenGate {
    fn at(&self, _worker: u32, _batch: u64) {}
}
