//! Pictures and masks, and what is read of them.

use cob_tree::Picture;
use picture_data::{PictureFault, read_picture};

// The picture of a text that isn't longer than any source.
fn read(text: &[u8]) -> Result<Picture, PictureFault> {
    if text.len() >= 1 << 31 {
        return Err(PictureFault::BadOrder(0));
    }
    read_picture(text)
}

/// A symbol of a picture, `S` of a signed number, and how many there are before and after the point.
type Told = Result<(u8, u32, u32), PictureFault>;

fn told(text: &[u8]) -> Told {
    match read(text) {
        Ok(
            Picture::Number {
                signed,
                whole,
                part,
            },
        ) => {
            let symbol = if signed { b'S' } else { b'9' };
            Ok((symbol, u32::from(whole), u32::from(part)))
        }
        Ok(Picture::Letters(count)) => Ok((b'A', count, 0)),
        Ok(Picture::Any(count)) => Ok((b'X', count, 0)),
        Ok(Picture::Edited(_)) => Ok((b'E', 0, 0)),
        Err(fault) => Err(fault),
    }
}

const PICTURES: [(&[u8], Told); 33] = [
    (b"9", Ok((b'9', 1, 0))),
    (b"s9(4)v99", Ok((b'S', 4, 2))),
    (b"S9(5)V99", Ok((b'S', 5, 2))),
    (b"V9", Ok((b'9', 0, 1))),
    (b"9(018)V", Ok((b'9', 18, 0))),
    (b"A(3)a", Ok((b'A', 4, 0))),
    (b"A9", Ok((b'X', 2, 0))),
    (b"9(19)X", Ok((b'X', 20, 0))),
    (b"X(65535)", Ok((b'X', 65535, 0))),
    (b"", Err(PictureFault::BadOrder(1))),
    (b"9Q", Err(PictureFault::BadSymbol(2))),
    (b"1", Err(PictureFault::BadSymbol(1))),
    (b"9(19)", Err(PictureFault::TooManyDigits(5))),
    (b"9(19)V", Err(PictureFault::TooManyDigits(6))),
    (b"S9(19)", Err(PictureFault::TooManyDigits(5))),
    (b"9(18)V9", Err(PictureFault::TooManyDigits(7))),
    (b"S", Err(PictureFault::BadOrder(1))),
    (b"S(2)9", Err(PictureFault::BadOrder(2))),
    (b"9V(2)", Err(PictureFault::BadOrder(3))),
    (b"9V9V", Err(PictureFault::BadOrder(4))),
    (b"SX", Err(PictureFault::BadOrder(2))),
    (b"9(0)", Err(PictureFault::BadOrder(4))),
    (b"9()", Err(PictureFault::BadOrder(3))),
    (b"X(65536)", Err(PictureFault::BadOrder(7))),
    (b"9(2", Err(PictureFault::BadOrder(3))),
    (b"9Z", Err(PictureFault::BadOrder(2))),
    (b"Z9Z", Err(PictureFault::BadOrder(3))),
    (b"ZZ,", Err(PictureFault::BadOrder(3))),
    (b"z9X", Err(PictureFault::BadOrder(3))),
    (b"S9.9", Err(PictureFault::BadOrder(1))),
    (b"90A", Err(PictureFault::BadOrder(3))),
    (b"Z1", Err(PictureFault::BadSymbol(2))),
    (b"Z(19)", Err(PictureFault::TooManyDigits(5))),
];

#[test]
fn pictures(rt: HostRuntime) {
    for (text, expected) in PICTURES {
        assert_eq!(rt; told(text), expected);
    }
}

const MASKS: [(&[u8], &[u8]); 8] = [
    (b"ZZ,ZZ9.99", b"Z(2),Z(2)9.9(2)"),
    (b"$$,$$9.99CR", b"$(2),$(2)9.99cr"),
    (b"+++9", b"+(3)9"),
    (b"***,**9", b"*(3),**9"),
    (b"99/99/99", b"9(2)/9(02)/99"),
    (b"ZZZV99", b"z(3)v9(2)"),
    (b"99999999990", b"9(10)0"),
    (b"999DB", b"9(3)db"),
];

#[test]
fn masks(rt: HostRuntime) {
    for (mask, counted) in MASKS {
        assert_eq!(rt; read(mask).is_ok(), true);
        assert_eq!(rt; read(counted), read(mask));
    }
}
