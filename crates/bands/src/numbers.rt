//! Division by powers of two.
ghost use Rattle.std.specs.Prelude.{◌≡◌, ◌/◌, ◌^◌};
ghost use Rattle.rect.specs.Numbers.{ceil};

/// ⌊a / 2^k⌋
#[tactic(auto, using(crate::proofs::Powers::floor_far))]
pub fn floor_div_pow(a: u32, k: u8) -> u32
    ensures { result ≡ a / 2 ^ k }
{
    a.checked_shr(u32::from(k)).unwrap_or(0)
}

/// ⌈a / 2^k⌉
pub fn ceil_div_pow(a: u32, k: u8) -> u32
    ensures { result ≡ ceil a (2 ^ k) }
{
    match 1u32.checked_shl(u32::from(k)) {
        Some(power) => a.div_ceil(power),
        None => a.min(1),
    }
}
