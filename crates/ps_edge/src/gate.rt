use std::sync::Wait;

/// A gate between the calls of workers. A test can hold one of them there until another has come.
pub trait Gate {
    /// Called by a worker before each call and after each answer. Its steps are counted from 0. It may wait.
    fn between<R: Wait>(&self, rt: &R, worker: u32, step: u64);
}

/// The gate that holds nobody.
#[derive(Clone, Copy, Debug, PartialEq, Eq)]
pub struct OpenGate;

impl Gate for OpenGate {
    fn between<R: Wait>(&self, _rt: &R, _worker: u32, _step: u64) {}
}
