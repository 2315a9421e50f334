//! The code bytes of markers (Table A.2): numbers, since any byte may stand in a codestream, and a const parameter takes no enum.

pub const SOC: u8 = 0x4F;

pub const SIZ: u8 = 0x51;

pub const COD: u8 = 0x52;

pub const COC: u8 = 0x53;

pub const TLM: u8 = 0x55;

pub const PLT: u8 = 0x58;

pub const QCD: u8 = 0x5C;

pub const QCC: u8 = 0x5D;

pub const RGN: u8 = 0x5E;

pub const PPM: u8 = 0x60;

pub const PPT: u8 = 0x61;

pub const CRG: u8 = 0x63;

pub const COM: u8 = 0x64;

pub const SOT: u8 = 0x90;

pub const SOD: u8 = 0x93;

pub const EOC: u8 = 0xD9;
