ghost use Rattle.headers.specs.Kinds.{main_kind_of, part_kind_of};
ghost use Rattle.std.specs.Prelude.{◌≡◌};

use layouts::markers::{COC, COD, COM, CRG, EOC, PLT, PPM, PPT, QCC, QCD, RGN, SOD, SOT, TLM};

/// What a marker is in a header.
#[derive(Clone, Copy, Debug, PartialEq, Eq)]
pub enum Kind {
    Sot,
    Sod,
    Eoc,
    Cod,
    Coc,
    Qcd,
    Qcc,
    Ppm,
    Ppt,
    Rgn,
    Tlm,
    Plt,
    Com,
    Crg,
    /// 0xFF30 to 0xFF3F, which have no segment.
    Bare,
    /// A marker that is not taken there.
    Foreign,
}

/// What a marker is in a main header.
pub fn main_kind(code: u8) -> Kind
    ensures { result ≡ main_kind_of code }
{
    match code {
        SOT => Kind::Sot,
        COD => Kind::Cod,
        COC => Kind::Coc,
        QCD => Kind::Qcd,
        QCC => Kind::Qcc,
        PPM => Kind::Ppm,
        RGN => Kind::Rgn,
        TLM => Kind::Tlm,
        COM => Kind::Com,
        CRG => Kind::Crg,
        0x30..=0x3F => Kind::Bare,
        _ => Kind::Foreign,
    }
}

/// What a marker is in a tile-part header.
pub fn part_kind(code: u8) -> Kind
    ensures { result ≡ part_kind_of code }
{
    match code {
        SOD => Kind::Sod,
        EOC => Kind::Eoc,
        COD => Kind::Cod,
        COC => Kind::Coc,
        QCD => Kind::Qcd,
        QCC => Kind::Qcc,
        PPT => Kind::Ppt,
        PLT => Kind::Plt,
        COM => Kind::Com,
        0x30..=0x3F => Kind::Bare,
        _ => Kind::Foreign,
    }
}
