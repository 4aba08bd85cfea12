/// What a worker passes between the claim of a task and its rendering. A test's gate may hold a
/// worker back; nothing that is promised rests on it.
pub trait Gate {
    fn pass(&self, worker: u32, task: u32);
}

/// The gate that holds nobody back.
#[derive(Clone, Copy, Debug)]
pub struct OpenGate;

impl Gate for OpenGate {
    fn pass(&self, _worker: u32, _task: u32) {}
}
