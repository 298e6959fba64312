//! A storm of clones: threads that clone one window through one reference, and release each clone.
ghost use Rattle.std.specs.Prelude.{◌≡◌, ◌≤◌, ◌∷◌, [], IfErr, IfOk};
ghost use Rattle.arc_owners.specs.declared.error.OwnerError.TheVariants as owner;
ghost use Rattle.arc_script.specs.declared.storm.StormError.TheVariants as storm_error;

use arc_block::layout::VecLayout;
use arc_buffer::kinds::Plain;
use arc_owners::error::OwnerError;
use arc_read::slice::ArcSlice;
use std::alloc::{self, Global};
use std::sync::Wait;
use std::thread::{self, Threads};
use thiserror::Error;

/// How many clones each worker makes.
const CLONES: usize = 1000;

/// What a worker passes between each clone and its release.
pub trait Gate {
    /// Returns when this worker may go on. Workers are numbered from 1.
    fn pass(&self, worker: usize);
}

/// A gate that lets everybody through at once.
#[derive(Clone, Copy)]
pub struct OpenGate;

impl Gate for OpenGate {
    fn pass(&self, _worker: usize) {}
}

/// Why a storm doesn't give its vector back.
#[derive(Clone, Copy, Debug, PartialEq, Eq, Error)]
pub enum StormError {
    /// A clone is refused, or memory for the vector, for its window or for the list of threads.
    #[error(transparent)]
    Owner(OwnerError),
    /// A thread can't be started.
    #[error("no thread")]
    Thread,
    /// Another window stands on the vector.
    #[error("not alone")]
    Taken,
}

impl From<alloc::AllocError> for StormError {
    ghost from_gives = { λ _ e. e ≡ storm_error.Owner owner.AllocError };

    fn from(_: alloc::AllocError) -> Self {
        StormError::Owner(OwnerError::AllocError)
    }
}

impl<T: Drop> From<alloc::AllocFailed<T>> for StormError {
    ghost from_gives = { λ _ e. e ≡ storm_error.Owner owner.AllocError };

    fn from(_: alloc::AllocFailed<T>) -> Self {
        StormError::Owner(OwnerError::AllocError)
    }
}

impl From<OwnerError> for StormError {
    ghost from_gives = { λ error e. e ≡ storm_error.Owner error };

    fn from(error: OwnerError) -> Self {
        StormError::Owner(error)
    }
}

/// The window that all workers clone.
type Window = ArcSlice<Plain<u8>, VecLayout>;

/// A window over the vector [42].
fn window_made(alloc: Global) -> Result<Window, StormError>
    ensures made { IfOk result (λ window. window.items ≡ 42 ∷ []) }
    ensures refused { IfErr result (λ e. e ≡ storm_error.Owner owner.AllocError) }
{
    let bytes = Vec::from_slice(alloc, &[42])?;
    match Window::try_from_vec(alloc, bytes) {
        Ok(window) => Ok(window),
        Err(_) => Err(StormError::Owner(OwnerError::AllocError)),
    }
}

/// What one worker does, 1,000 times: it clones the window, passes the gate and releases the clone.
fn work<G: Gate>(
    rt: &impl Wait,
    window: &Window,
    gate: &G,
    worker: usize,
) -> Result<(), OwnerError> {
    for _ in 0..CLONES {
        let clone = window.try_clone(rt)?;
        gate.pass(worker);
        drop(clone);
    }
    Ok(())
}

/// Starts `workers` threads that work, and waits until all have ended.
fn work_in_threads<R: Threads + Wait + Sync, G: Gate + Sync>(
    rt: &R,
    alloc: Global,
    window: &Window,
    gate: &G,
    workers: usize,
) -> Result<(), StormError> {
    thread::scope(thread::scope_env(), rt, |scope| {
        let mut started = Vec::new(alloc);
        for before in 0..workers {
            let worker = before + 1;
            match scope.spawn(move || work(rt, window, gate, worker)) {
                Ok(thread) => started.push(thread)?,
                Err(_) => return Err(StormError::Thread),
            }
        }
        for thread in started {
            thread.join(rt)?;
        }
        Ok(())
    })
}

/// Makes a window of the vector [42], lets `workers` threads, from 1 to 64, clone it, and takes the
/// vector back. Each worker clones the window 1,000 times through one reference, and passes the
/// gate between a clone and its release.
///
/// # Errors
///
/// - `Owner` where a clone is refused, or memory for the vector, for its window or for the list of
///   threads.
/// - `Thread` where a thread can't be started.
/// - `Taken` where another window stands on the vector at the end.
///
/// # Allocates
///
/// For the vector, for its window and for the list of threads.
pub fn storm<R: Threads + Wait + Sync, G: Gate + Sync>(
    rt: &R,
    alloc: Global,
    workers: usize,
    gate: &G,
) -> Result<Vec<u8>, StormError>
    requires some { 1 ≤ workers }
    requires most { workers ≤ 64 }
    ensures vector { IfOk result (λ bytes. bytes.items ≡ 42 ∷ []) }
{
    let window = window_made(alloc)?;
    work_in_threads(rt, alloc, &window, gate, workers)?;
    match window.try_into_vec() {
        Ok(bytes) => Ok(bytes),
        Err(_) => Err(StormError::Taken),
    }
}
