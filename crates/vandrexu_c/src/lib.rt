//! The library for callers in C, one function each: a controller, a checker, whole texts, hosts with drivers, their
//! slots, and hosts of a controller that is somewhere else. The headers in `include/` say how they are called.
#![tactic(auto)]

mod answers;
mod batch;
mod call_told;
mod carrying;
mod checker;
mod configuration;
mod controller;
mod copying;
mod disk_calls;
mod disk_looks;
mod disk_slots;
mod held;
mod host;
mod host_calls;
mod host_ending;
mod host_handle;
mod host_making;
mod host_reply;
mod lending;
mod line;
mod lines;
mod numbers;
mod owned_checker;
mod owned_controller;
mod owned_slot_checker;
mod owned_tracer;
mod remote;
mod remote_calls;
mod remote_handle;
mod remote_slot_calls;
mod remote_slot_handle;
mod remote_slots;
mod replays;
mod settling;
mod slot_checker;
mod slot_checker_handle;
mod slot_exports;
mod slot_handle;
mod slot_making;
mod slot_reply;
mod steps;
mod texts;
mod tracer;
