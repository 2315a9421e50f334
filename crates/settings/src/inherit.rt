ghost use Rattle.settings.specs.Inheritance.{MainSettled, Settled, after, settings_after_coc, settings_after_cod, settings_after_qcc, settings_after_qcd, applied, inherited, joined, tile_after};
ghost use Rattle.std.specs.Prelude.{◌≡◌};

use crate::rows::{ComponentSettings, TileRow};
use coding::parameters::{CodingStyleComponent, CodingStyleDefault};
use coding::styles::CodingStyleFlags;
use quantization::info::QuantizationInfo;

/// A segment that sets coding style or quantization; COC and QCC with the index of their component.
#[derive(Clone, Copy)]
pub enum Setting {
    Cod(CodingStyleDefault),
    Coc(u16, CodingStyleComponent),
    Qcd(QuantizationInfo),
    Qcc(u16, QuantizationInfo),
}

// Bit 0 of one byte, and the other bits of another.
fn join_flags(low: CodingStyleFlags, others: CodingStyleFlags) -> CodingStyleFlags
    ensures { result.raw ≡ joined low.raw others.raw }
{
    CodingStyleFlags {
        raw: others.raw / 2 * 2 + low.raw % 2,
    }
}

impl ComponentSettings {
    /// What a COD makes of the row: an own COC keeps its parameters and flag bit 0.
    pub fn after_cod(&self, cod: &CodingStyleComponent) -> ComponentSettings
        ensures { result ≡ settings_after_cod cod.now self.now }
    {
        if self.coc {
            ComponentSettings {
                flags: join_flags(self.flags, cod.flags),
                ..*self
            }
        } else {
            ComponentSettings {
                flags: cod.flags,
                parameters: cod.parameters,
                ..*self
            }
        }
    }

    /// What the component's own COC makes of the row: all flags but bit 0 stay.
    pub fn after_coc(&self, coc: &CodingStyleComponent) -> ComponentSettings
        ensures { result ≡ settings_after_coc coc.now self.now }
    {
        ComponentSettings {
            flags: join_flags(coc.flags, self.flags),
            parameters: coc.parameters,
            coc: true,
            ..*self
        }
    }

    /// What a QCD makes of the row: nothing, where it has an own QCC.
    pub fn after_qcd(&self, qcd: &QuantizationInfo) -> ComponentSettings
        ensures { result ≡ settings_after_qcd qcd.now self.now }
    {
        if self.qcc {
            return *self;
        }
        ComponentSettings {
            quantization: *qcd,
            ..*self
        }
    }

    /// What the component's own QCC makes of the row.
    pub fn after_qcc(&self, qcc: &QuantizationInfo) -> ComponentSettings
        ensures { result ≡ settings_after_qcc qcc.now self.now }
    {
        ComponentSettings {
            quantization: *qcc,
            qcc: true,
            ..*self
        }
    }
}

impl TileRow {
    /// What a COD makes of the tile's row.
    pub fn after_cod(&self, cod: &CodingStyleDefault) -> TileRow
        ensures { result ≡ tile_after cod.now self.now }
    {
        TileRow {
            progression: cod.progression,
            layers: cod.layers,
            mct: cod.mct,
            ..*self
        }
    }
}

impl ComponentSettings {
    /// The row as a tile starts with it: with no COC or QCC of its own.
    pub fn inherited(&self) -> ComponentSettings
        ensures { result ≡ inherited self.now }
    {
        ComponentSettings {
            coc: false,
            qcc: false,
            ..*self
        }
    }

    /// What one segment makes of the row of component `index`.
    pub fn after(&self, index: u16, segment: &Setting) -> ComponentSettings
        ensures { result ≡ after index segment.now self.now }
    {
        match segment {
            Setting::Cod(cod) => self.after_cod(&cod.component),
            Setting::Coc(i, coc) if *i == index => self.after_coc(coc),
            Setting::Coc(_, _) => *self,
            Setting::Qcd(qcd) => self.after_qcd(qcd),
            Setting::Qcc(i, qcc) if *i == index => self.after_qcc(qcc),
            Setting::Qcc(_, _) => *self,
        }
    }

    /// What segments make of the row of component `index`, one after another.
    pub fn after_all(&self, index: u16, segments: &[Setting]) -> ComponentSettings
        ensures applied { result ≡ applied index self.now segments.now }
        ensures settled { Settled index self.now segments.now result }
    {
        // A `fold` left the second clause open.
        let mut row = *self;
        for segment in segments {
            row = row.after(index, segment);
        }
        row
    }
}

/// What the segments of a main header make of component `index`.
pub fn main_settings(index: u16, segments: &[Setting]) -> ComponentSettings
    ensures { MainSettled index segments.now result }
{
    let row = ComponentSettings::blank().after_all(index, segments);
    row.inherited()
}
