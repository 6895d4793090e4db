//! Tests of the workers: works and gates that watch what is called, and runs on one and more threads.
mod gates;
mod refusals;
mod run;
mod work_off;
mod works;
