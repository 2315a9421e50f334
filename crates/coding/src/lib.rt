//! The coding style marker segments COD and COC.
#![tactic(auto)]

ghost use Rattle.coding.specs.Places.{CocPlaces, CodPlaces};

pub mod coc;
pub mod cod;
mod fields;
pub mod parameters;
pub mod styles;

/// The fields of an accepted COD or COC stand at the standard's places, and it ends where its length must say.
pub fn segments_placed()
    ensures cod { CodPlaces }
    ensures coc { CocPlaces }
{}
