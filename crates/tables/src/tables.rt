use segments::size_data::ComponentSizeInfo;
use settings::rows::{ComponentSettings, PackedRow, PartRow, TileRow};

/// The rows that a caller lends a book; it passes the same ones to each call.
#[derive(Drop)]
pub struct Tables<'a> {
    pub components: &'a mut [ComponentSizeInfo],
    pub tiles: &'a mut [TileRow],
    /// Row tile × Csiz + component.
    pub settings: &'a mut [ComponentSettings],
    pub packets: &'a mut [PackedRow],
    pub parts: &'a mut [PartRow],
    pub headers: &'a mut [PackedRow],
}
