// Kernels: which way three coordinates turn. Code above asks a scalar's own kernel and knows only its contract.
#![tactic(auto)]

pub mod geo_num;
pub mod kernels;
mod signs;
