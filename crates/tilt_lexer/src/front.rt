// The longest token at the beginning of bytes.
ghost use Rattle.std.specs.Prelude.{◌≢◌, ◌<◌, length, slice_index, IfOk, IfErr, IsTrue, MatchOption};
ghost use Rattle.std.specs.Bool.{IsFalse};
ghost use Rattle.std.specs.Char.{is_ascii_digit};
ghost use Rattle.tilt_lexer.specs.Front.{IsFront};
ghost use Rattle.tilt_lexer.specs.Next.{IsNextFault};
ghost use Rattle.tilt_lexer.specs.Tokens.{is_blank, BeginsBig, BeginsNone};
ghost use Rattle.tilt_lexer.specs.Word.{begins_word};

use crate::fault::LexFault;
use crate::key::find_key;
use crate::mark::{find_mark, mark_text};
use crate::name::{Name, begins_word, word_length};
use crate::number::{digits_length, digits_value};
use crate::token::Tok;
use std::alloc::{AllocError as OutOfMemory, Global};

// The longest token at the beginning of the bytes, and how many bytes it has. The first byte, at the place `at`, is no
// blank.
pub(crate) fn front_token(alloc: Global, bytes: &[u8], at: u64) -> Result<(Tok, usize), LexFault>
    requires some { 0 < length bytes.now }
    requires no_blank { IsFalse (is_blank (slice_index bytes.now 0)) }
    ensures ok { IfOk result (λ found. IsFront found.0 found.1 bytes.now) }
    ensures err { IfErr result (λ fault. fault ≢ LexFault.OutOfMemory → IsNextFault at bytes.now fault) }
{
    if begins_word(bytes[0]) {
        Ok(front_word(alloc, bytes)?)
    } else if bytes[0].is_ascii_digit() {
        front_number(bytes).ok_or(LexFault::BigNumber { at })
    } else {
        front_mark(bytes).ok_or(LexFault::BadByte { at })
    }
}

// The word at the beginning, which is a name or a reserved word.
fn front_word(alloc: Global, bytes: &[u8]) -> Result<(Tok, usize), OutOfMemory>
    requires { IsTrue (begins_word (slice_index bytes.now 0)) }
    ensures { IfOk result (λ found. IsFront found.0 found.1 bytes.now) }
{
    let length = word_length(bytes);
    let word = &bytes[..length];
    match find_key(word) {
        Some(key) => Ok((Tok::Key(key), length)),
        None => Ok((Tok::Word(Name::from_word(alloc, word)?), length)),
    }
}

// The number at the beginning, or `None` if it is too big.
fn front_number(bytes: &[u8]) -> Option<(Tok, usize)>
    requires { IsTrue (is_ascii_digit (slice_index bytes.now 0)) }
    ensures { MatchOption result (BeginsBig bytes.now) (λ found. IsFront found.0 found.1 bytes.now) }
{
    let length = digits_length(bytes);
    let number = digits_value(&bytes[..length])?;
    Some((Tok::Number(number), length))
}

// The sign at the beginning, or `None` if no token begins there.
fn front_mark(bytes: &[u8]) -> Option<(Tok, usize)>
    requires no_word { IsFalse (begins_word (slice_index bytes.now 0)) }
    requires no_digit { IsFalse (is_ascii_digit (slice_index bytes.now 0)) }
    ensures { MatchOption result (BeginsNone bytes.now) (λ found. IsFront found.0 found.1 bytes.now) }
{
    let mark = find_mark(bytes)?;
    Some((Tok::Mark(mark), mark_text(mark).len()))
}
