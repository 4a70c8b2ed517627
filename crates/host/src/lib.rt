// The calls for host players in C and Rust, on byte slices and numbers. bindings/c/sheet.h declares them.
#![tactic(auto)]

pub mod check;
pub mod frame;
pub mod gain;
pub mod listing;
