// The signs.
ghost use Rattle.std.specs.Prelude.{◌≡◌, ◌≢◌, ◌++◌, List, ℕ, MatchOption};
ghost use Rattle.tilt_lexer.specs.declared.mark.Mark.{Mark};
ghost use Rattle.tilt_lexer.specs.Tokens.{mark_text};
ghost use Rattle.tilt_lexer.specs.Front.{BeginsWithSign};

/// A sign of a query.
#[derive(Clone, Copy, Debug, PartialEq, Eq)]
pub enum Mark {
    /// `;`
    Semicolon,
    /// `=`
    Assign,
    /// `==`
    Equal,
    /// `!=`
    NotEqual,
    /// `<`
    Less,
    /// `<=`
    AtMost,
    /// `>`
    Greater,
    /// `>=`
    AtLeast,
    /// `+`
    Plus,
    /// `-`
    Minus,
    /// `*`
    Star,
    /// `/`
    Slash,
    /// `%`
    Percent,
    /// `(`
    OpenParen,
    /// `)`
    CloseParen,
    /// `[`
    OpenBracket,
    /// `]`
    CloseBracket,
    /// `,`
    Comma,
    /// `:`
    Colon,
}

// The text of a sign.
pub(crate) fn mark_text(mark: Mark) -> &'static [u8]
    ensures { result.now ≡ mark_text mark }
{
    match mark {
        Mark::Semicolon => b";",
        Mark::Assign => b"=",
        Mark::Equal => b"==",
        Mark::NotEqual => b"!=",
        Mark::Less => b"<",
        Mark::AtMost => b"<=",
        Mark::Greater => b">",
        Mark::AtLeast => b">=",
        Mark::Plus => b"+",
        Mark::Minus => b"-",
        Mark::Star => b"*",
        Mark::Slash => b"/",
        Mark::Percent => b"%",
        Mark::OpenParen => b"(",
        Mark::CloseParen => b")",
        Mark::OpenBracket => b"[",
        Mark::CloseBracket => b"]",
        Mark::Comma => b",",
        Mark::Colon => b":",
    }
}

// The longest sign at the beginning of the bytes, or `None` if there is none.
pub(crate) fn find_mark(bytes: &[u8]) -> Option<Mark>
    ensures { MatchOption result
        ((m : Mark) (more : List ℕ) → bytes.now ≢ mark_text m ++ more)
        (λ m. BeginsWithSign m bytes.now) }
{
    // The longer ones come first: what begins with `==` begins with `=` too.
    match bytes {
        [b'=', b'=', ..] => Some(Mark::Equal),
        [b'!', b'=', ..] => Some(Mark::NotEqual),
        [b'<', b'=', ..] => Some(Mark::AtMost),
        [b'>', b'=', ..] => Some(Mark::AtLeast),
        [b';', ..] => Some(Mark::Semicolon),
        [b'=', ..] => Some(Mark::Assign),
        [b'<', ..] => Some(Mark::Less),
        [b'>', ..] => Some(Mark::Greater),
        [b'+', ..] => Some(Mark::Plus),
        [b'-', ..] => Some(Mark::Minus),
        [b'*', ..] => Some(Mark::Star),
        [b'/', ..] => Some(Mark::Slash),
        [b'%', ..] => Some(Mark::Percent),
        [b'(', ..] => Some(Mark::OpenParen),
        [b')', ..] => Some(Mark::CloseParen),
        [b'[', ..] => Some(Mark::OpenBracket),
        [b']', ..] => Some(Mark::CloseBracket),
        [b',', ..] => Some(Mark::Comma),
        [b':', ..] => Some(Mark::Colon),
        _ => None,
    }
}
