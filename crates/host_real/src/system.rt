//! What a real tree takes of the system, beside its files.

use std::sync::Wait;
use std::thread::Threads;
use std::time::Clock;

/// Waits, for as long as a clock tells, by a handle that is copied: what a tree that is open
/// calls.
pub trait Waiter: Wait + Clock + Copy + Drop {}

impl<R> Waiter for R
where
    R: Wait + Clock + Copy + Drop,
{}

/// The same, and threads that may have the handle too: what a tree is opened by. No tree
/// starts a thread later on.
pub trait System: Waiter + Threads + Send + 'static {}

impl<R> System for R
where
    R: Waiter + Threads + Send + 'static,
{}
