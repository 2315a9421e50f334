//! The quantization of a component: the QCD and QCC marker segments (T.800 A.6.4 and A.6.5).
#![tactic(auto)]

ghost use Rattle.quantization.specs.Quantization.{KeptEach};

pub mod info;
pub mod markers;
mod parameters;
mod steps;

/// Each step size that is kept is what the value at its place says.
pub fn steps_kept()
    ensures { KeptEach }
{}
