//! Masks, their faults, and what numbers show through them, worked by hand.

ghost use Rattle.std.specs.Prelude.{◌≤◌};

use cob_num::Dec;
use edit_fields::{Digits, Mask, MaskFault, edit, is_written_out, mask_fault, mask_size};

fn number(value: i64, scale: u8) -> Dec
    requires { scale ≤ 36 }
{
    Dec {
        value: i128::from(value),
        scale: scale as u64,
    }
}

// Whether the text is a mask of that size, and then its bytes.
fn shows(mask: &[u8], value: Dec, into: &mut [u8]) -> bool {
    if mask.len() > 160 || mask_size(mask) != into.len() || !is_written_out(mask) {
        return false;
    }
    match mask_fault(mask) {
        None => {
            edit(mask, value, into);
            true
        }
        Some(_) => false,
    }
}

const SHOWN: [(&[u8], i64, u8, &[u8]); 15] = [
    (b"ZZ,ZZ9.99", 12345, 1, b" 1,234.50"),
    (b"ZZ,ZZ9.99", 5, 2, b"     0.05"),
    (b"$$,$$9.99CR", -123, 1, b"   $12.30CR"),
    (b"$$,$$9", 123, 0, b"  $123"),
    (b"+++9", -7, 0, b"  -7"),
    (b"***,**9", 12, 0, b"*****12"),
    (b"***.**", 0, 0, b"***.**"),
    (b"99/99/99", 10203, 0, b"01/02/03"),
    (b"zzzvzz", 5, 2, b"   05"),
    (b"ZZZ.ZZ", 0, 0, b"      "),
    (b"-$ZB9.9", -4, 3, b" $  0.0"),
    (b"$B$B$", 12, 0, b" $1 2"),
    (b"--9", -1001, 0, b" -1"),
    (b"9DB", -10, 0, b"0  "),
    (b"99DB", -110, 1, b"11DB"),
];

#[test]
fn numbers_show(rt: HostRuntime) {
    for (mask, value, scale, want) in SHOWN {
        let mut into = [0; 16];
        if want.len() <= 16 && scale <= 36 {
            let shown = shows(mask, number(value, scale), &mut into[..want.len()]);
            assert_eq!(rt; shown, true);
            assert_eq!(rt; &into[..want.len()], want);
        }
    }
}

const FAULTS: [(&[u8], Option<MaskFault>); 20] = [
    (b"z(3),z(3).9(2)", None),
    (b"+B+9", None),
    (b"$$.$$", None),
    (b"B(159)9", None),
    (b"9Z", Some(MaskFault::Order(2))),
    (b"Z9Z", Some(MaskFault::Order(3))),
    (b"B+9", Some(MaskFault::Order(3))),
    (b".$$9", Some(MaskFault::Order(2))),
    (b"ZZ.Z9", Some(MaskFault::Order(5))),
    (b"+ZZCR", Some(MaskFault::Order(4))),
    (b"9.(2)9", Some(MaskFault::Order(2))),
    (b"Z(0)", Some(MaskFault::Order(4))),
    (b"ZV(1)", Some(MaskFault::Order(3))),
    (b"9C", Some(MaskFault::Order(2))),
    (b"99V9", Some(MaskFault::Order(4))),
    (b"ZZ9,", Some(MaskFault::Order(4))),
    (b"B(160)9", Some(MaskFault::Order(7))),
    (b"", Some(MaskFault::Order(1))),
    (b"ZX", Some(MaskFault::Symbol(2))),
    (b"Z(10)9(9)", Some(MaskFault::TooManyDigits(9))),
];

#[test]
fn faults_have_places(rt: HostRuntime) {
    for (text, want) in FAULTS {
        if text.len() <= 160 {
            assert_eq!(rt; mask_fault(text), want);
        }
    }
}

// Whether the text is a mask of that size and of those symbols, and then its bytes.
fn holds(text: &[u8], symbols: &[u8], digits: Digits, value: Dec, into: &mut [u8]) -> bool {
    if text.len() > 160 {
        return false;
    }
    match Mask::new(text) {
        Ok(mask) => {
            if mask.size() as usize != into.len() {
                return false;
            }
            mask.edit(value, into);
            mask.as_slice() == symbols && mask.digits() == digits
        }
        Err(_) => false,
    }
}

#[test]
fn masks_are_held(rt: HostRuntime) {
    let mut into = [0; 10];
    let digits = Digits { whole: 6, part: 2 };
    let held = holds(
        b"z(3),z(3).9(2)",
        b"ZZZ,ZZZ.99",
        digits,
        number(123456, 2),
        &mut into,
    );
    assert_eq!(rt; held, true);
    assert_eq!(rt; &into[..], b"  1,234.56".as_slice());
}
