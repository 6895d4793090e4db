//! Tests of the jobs of a signature and of a key.
mod damage;
mod fixtures;
mod keys;
mod mixed;
mod signatures;
