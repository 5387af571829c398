//! The machine for hosts that call C: they own all input and output, all threads and the time, and step it. Each call may come at any
//! time and with any numbers; where one doesn't fit, the answer says so, and nothing changes.
#![tactic(auto)]

mod code;
mod exports;
mod handing;
mod handle;
mod lines;
mod opening;
mod parts;
mod seat;
mod session;
mod sizes;
mod step;
mod stepping;
mod unopened;
