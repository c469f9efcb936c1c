ghost use Rattle.std.specs.Prelude.{◌≡◌, pos, ◌*ℤ◌, ◌≤ℤ◌, FitsSigned};
ghost use Rattle.std.specs.Int.{w64};
ghost use Rattle.quant.specs.Rounding.{quotient, Floor};

/// `a` divided by `b`, rounded down. It divides in 64 bits where `a` has no more.
pub fn floor_quotient(a: i128, b: i64) -> i64
    requires positive { pos 1 ≤ℤ b }
    requires fits { FitsSigned w64 (quotient Floor a b) }
    ensures { result ≡ quotient Floor a b }
{
    match i64::try_from(a) {
        Ok(small) => small.div_euclid(b),
        Err(_) => a.div_euclid(i128::from(b)) as i64,
    }
}

/// `a` times `b`, which 128 bits always hold.
pub fn product(a: i64, b: i64) -> i128
    ensures { result ≡ a *ℤ b }
{
    i128::from(a) * i128::from(b)
}
