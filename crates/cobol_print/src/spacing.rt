//! Where tokens are put on a line.

ghost use Rattle.std.specs.Prelude.{◌≡◌, ◌≤◌};
ghost use Rattle.cobol_print.specs.Spacing.{hugs as hugs_left, no_space_behind as clings_right, is_literal as literal_kind, start_of as start_by};

use cobol_lex::TokenKind;

/// The column after the last one of a line.
pub const BEHIND: usize = 73;

/// Whether no space comes before this token.
fn hugs(token: &TokenKind) -> bool
    ensures { result ≡ hugs_left token.now }
{
    matches!(token, TokenKind::Period | TokenKind::Mark(b')' | b':'))
}

/// Whether no space comes after this token.
pub fn no_space_behind(token: &TokenKind) -> bool
    ensures { result ≡ clings_right token.now }
{
    matches!(token, TokenKind::Mark(b'(' | b':'))
}

fn is_literal(token: &TokenKind) -> bool
    ensures { result ≡ literal_kind token.now }
{
    matches!(token, TokenKind::Literal(_))
}

/// Where a token begins, and whether on a new line.
#[derive(Clone, Copy, Debug)]
pub struct TokenStart {
    pub breaks: bool,
    pub column: usize,
}

/// Where a token of this size begins, in a unit with this margin, after what ends before this
/// column.
pub fn start_of(
    margin: usize,
    column: usize,
    clings: bool,
    token: &TokenKind,
    size: usize,
) -> TokenStart
    requires margin { margin ≤ 32 }
    requires column { column ≤ 73 }
    ensures { result ≡ start_by margin column clings token.now size }
{
    let gap = if clings || hugs(token) { 0 } else { 1 };
    if column + gap <= BEHIND && size <= BEHIND - (column + gap) {
        return TokenStart {
            breaks: false,
            column: column + gap,
        };
    }
    if is_literal(token) && size > BEHIND - (margin + 4) {
        return TokenStart {
            breaks: true,
            column: 12,
        };
    }
    TokenStart {
        breaks: true,
        column: margin + 4,
    }
}
