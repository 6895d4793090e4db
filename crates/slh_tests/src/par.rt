//! Tests of key generation, signing and verifying by several threads: whatever the gate and the schedule, the bytes are
//! those of one thread; and each refusal.
mod batches;
mod fixtures;
mod gates;
mod growths;
mod questions;
mod records;
mod refusals;
mod schedules;
mod signing;
mod verifying;
