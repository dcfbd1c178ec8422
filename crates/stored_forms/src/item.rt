//! What a number item holds, whatever its form.

ghost use Rattle.std.specs.Prelude.{◌≡◌, ◌^◌, ◌<◌, ◌≤◌};
ghost use Rattle.stored_forms.specs.Item.{is_held};

/// How many numbers have at most so many digits.
pub fn count_of_digits(digits: u8) -> u64
    requires { digits ≤ 18 }
    ensures count { result ≡ 10 ^ digits }
    ensures some { 0 < result }
{
    match digits {
        0 => 1,
        1 => 10,
        2 => 100,
        3 => 1_000,
        4 => 10_000,
        5 => 100_000,
        6 => 1_000_000,
        7 => 10_000_000,
        8 => 100_000_000,
        9 => 1_000_000_000,
        10 => 10_000_000_000,
        11 => 100_000_000_000,
        12 => 1_000_000_000_000,
        13 => 10_000_000_000_000,
        14 => 100_000_000_000_000,
        15 => 1_000_000_000_000_000,
        16 => 10_000_000_000_000_000,
        17 => 100_000_000_000_000_000,
        _ => 1_000_000_000_000_000_000,
    }
}

// Whether the item can hold the value: this has few enough digits, and the item a sign where one is
// needed.
pub fn is_held(value: i128, digits: u8, signed: bool) -> bool
    requires { digits ≤ 18 }
    ensures { result ≡ is_held value digits signed }
{
    value.unsigned_abs() < u128::from(count_of_digits(digits)) && (signed || value >= 0)
}
