//! The precincts of a resolution (T.800 B.6), with their places on the reference grid (B.12.1.3).
#![tactic(auto)]

pub mod axis;
mod axis_precinct;
mod direction;
pub mod grid;
pub mod precinct;
mod resolution;

ghost use Rattle.precincts.specs.Laws.{PrecinctLaws};
ghost use Rattle.precincts.specs.Worked.{PrecinctsWorked};

/// The places of the precincts stand at next multiples and have a closed form; a direction ends at 2^32 or behind it where some precinct does.
pub fn precinct_laws()
    ensures { PrecinctLaws }
{}

/// The precincts of a small tile, worked out from the definitions.
pub fn precincts_worked()
    ensures { PrecinctsWorked }
{}
