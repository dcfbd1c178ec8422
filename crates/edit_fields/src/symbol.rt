//! The symbols of a mask, in capitals, by their kinds.

ghost use Rattle.std.specs.Prelude.{◌≡◌};
ghost use Rattle.edit_fields.specs.Symbol as symbols;

/// Whether it is `+` or `-`.
#[inline(always)]
pub fn is_sign(symbol: u8) -> bool
    ensures { result ≡ symbols.is_sign symbol }
{
    symbol == b'+' || symbol == b'-'
}

/// Whether it is a sign or `$`, which floats where it comes twice.
#[inline(always)]
pub fn is_currency_or_sign(symbol: u8) -> bool
    ensures { result ≡ symbols.is_currency_or_sign symbol }
{
    is_sign(symbol) || symbol == b'$'
}

/// Whether it is Z or `*`.
pub fn is_suppressor(symbol: u8) -> bool
    ensures { result ≡ symbols.is_suppressor symbol }
{
    symbol == b'Z' || symbol == b'*'
}

/// Whether it is B, 0, `/` or a comma.
pub fn is_insertion(symbol: u8) -> bool
    ensures { result ≡ symbols.is_insertion symbol }
{
    symbol == b'B' || symbol == b'0' || symbol == b'/' || symbol == b','
}

/// Whether it is a period or V.
pub fn is_point(symbol: u8) -> bool
    ensures { result ≡ symbols.is_point symbol }
{
    symbol == b'.' || symbol == b'V'
}

/// Whether CR or DB begins with it.
#[inline(always)]
pub fn is_tail_letter(symbol: u8) -> bool
    ensures { result ≡ symbols.is_tail_letter symbol }
{
    symbol == b'C' || symbol == b'D'
}

/// Whether it is a symbol of a mask.
pub fn is_symbol(symbol: u8) -> bool
    ensures { result ≡ symbols.is_symbol symbol }
{
    is_currency_or_sign(symbol)
        || is_suppressor(symbol)
        || symbol == b'9'
        || is_insertion(symbol)
        || is_point(symbol)
        || is_tail_letter(symbol)
        || symbol == b'R'
}
