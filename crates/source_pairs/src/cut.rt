//! Two programs in one source, cut at a line.

ghost use Rattle.std.specs.Prelude.{◌≡◌, IfSome, IfNone};
ghost use Rattle.source_pairs.specs.Cut.{IsCut, IsUncut, bar_length, end_length};

/// The two programs of a source.
#[derive(Clone, Copy)]
pub struct Halves<'a> {
    pub first: &'a [u8],
    pub second: &'a [u8],
}

// How many bytes the line of the cut has with its end, where these bytes begin with it.
fn bar_length(rest: &[u8]) -> Option<usize>
    ensures { result ≡ bar_length rest.now }
{
    match rest {
        [b'=', b'=', b'=', b'=', b'=', b'=', behind @ ..] => end_length(behind),
        _ => None,
    }
}

// How many bytes six `=` and the end of their line have, where the line ends here.
fn end_length(behind: &[u8]) -> Option<usize>
    ensures { result ≡ end_length behind.now }
{
    match behind {
        [] => Some(6),
        [b'\n', ..] => Some(7),
        [b'\r', b'\n', ..] => Some(8),
        _ => None,
    }
}

/// The two programs, cut at the first line that is exactly six `=`; none where no line is.
pub fn cut_in_two(bytes: &[u8]) -> Option<Halves<'_>>
    ensures found { IfSome result (λ cut. IsCut bytes.now cut.first.now cut.second.now) }
    ensures none { IfNone result (IsUncut bytes.now) }
{
    let mut at_line = true;
    for at in 0..bytes.len() {
        if at_line {
            if let Some(length) = bar_length(&bytes[at..]) {
                return Some(Halves {
                    first: &bytes[..at],
                    second: &bytes[at + length..],
                });
            }
        }
        at_line = bytes[at] == b'\n';
    }
    None
}
