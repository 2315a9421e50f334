//! Marker segments as tables of fields: what reading one comes to, for every table.
#![tactic(auto)]

ghost use Rattle.layouts.specs.Laws.{LayoutsRead};
ghost use Rattle.layouts.specs.Layouts.{ReadsAll};

pub mod header;
pub mod index;
pub mod markers;
pub mod reserved;

/// Every layout is read field by field. An accepted reading gives the values at the places that the widths add up to, and ends behind the
/// last field; a refused one names the first field that is missing or refused.
pub fn layouts_read()
    ensures tables { ReadsAll }
    ensures layouts { LayoutsRead }
{}
