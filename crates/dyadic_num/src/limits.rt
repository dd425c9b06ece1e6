//! The limits, as numbers.

ghost use Rattle.std.specs.Prelude.{◌≡◌};
ghost use Rattle.dyadic_num.specs.Limits.{greatest_exponent};
ghost use Rattle.dyadic_num.specs.declared.TheConstants.{EXPONENT};

/// The limits are these numbers. It has no code.
pub fn limit_laws()
    ensures exponent { EXPONENT ≡ greatest_exponent }
{}
