//! Why a number is refused.

/// Why a text or a sum is no `Decimal`. Where several apply, the first of this order is given.
/// DynamoDB Developer Guide, "Data types", "Number": up to 38 digits, magnitudes from 1E-130 to 9.99..E+125.
#[derive(Clone, Copy, Debug, PartialEq, Eq)]
pub enum NumberFault {
    /// The text is no number text.
    NotANumber,
    /// The number has over 38 digits, leading and trailing zeros not counted.
    TooManyDigits,
    /// Its first digit stands above 10^125.
    TooLarge,
    /// It is not zero, and its first digit stands below 10^-130.
    TooSmall,
}
