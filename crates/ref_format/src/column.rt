//! Columns of a line.

ghost use Rattle.std.specs.Prelude.{◌≡◌, ◌≤◌, ◌++◌, length, drop};
ghost use Rattle.ref_format.specs.Column.{card_of, plain_card, has_tab, is_blank, has_control, unspaced};

/// The bytes in columns 1 to 72 of a line, a tab being spaces up to the next of columns 9, 17, 25
/// and so on.
pub fn card_of_line(line: &[u8]) -> [u8; 72]
    ensures { result ≡ card_of line.now }
{
    let card = plain_card(line);
    if has_tab(&card) {
        tabbed_card(line)
    } else {
        card
    }
}

fn plain_card(line: &[u8]) -> [u8; 72]
    ensures { result ≡ plain_card line.now }
{
    let mut card = [b' '; 72];
    let width = line.len();
    if width >= 72 {
        card.copy_from_slice(&line[..72]);
        return card;
    }
    put_front(&mut card, line);
    card
}

fn put_front(card: &mut [u8], line: &[u8])
    requires { length line.now ≤ length card.old }
    ensures { card.new ≡ line.now ++ drop (length line.now) card.old }
{
    card[..line.len()].copy_from_slice(line);
}

fn has_tab(card: &[u8; 72]) -> bool
    ensures { result ≡ has_tab card.now }
{
    let mut found = false;
    for byte in card {
        found |= *byte == b'\t';
    }
    found
}

fn tabbed_card(line: &[u8]) -> [u8; 72]
    ensures { result ≡ card_of line.now }
{
    let mut card = [b' '; 72];
    let mut before = 0;
    for byte in line {
        if before >= 72 {
            return card;
        }
        if *byte == b'\t' {
            before += 8 - before % 8;
        } else {
            card[before] = *byte;
            before += 1;
        }
    }
    card
}

/// Whether all bytes are spaces.
pub fn blank(bytes: &[u8]) -> bool
    ensures { result ≡ is_blank bytes.now }
{
    bytes.iter().all(|b| *b == b' ')
}

/// Whether one of the bytes is a control character, below 32.
pub fn controls(bytes: &[u8]) -> bool
    ensures { result ≡ has_control bytes.now }
{
    let mut found = false;
    for byte in bytes {
        found |= *byte < b' ';
    }
    found
}

/// The bytes without the spaces before them.
pub fn behind_spaces(bytes: &[u8]) -> &[u8]
    ensures { result.now ≡ unspaced bytes.now }
{
    let mut rest = bytes;
    while let [b' ', tail @ ..] = rest {
        rest = tail;
    }
    rest
}
