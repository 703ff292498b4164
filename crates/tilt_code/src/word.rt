// The words of a line.
ghost use Rattle.std.specs.Prelude.{◌≡◌, ◌↔◌, [], ◌∷◌, option_map, IsTrue, MatchOption};
ghost use Rattle.std.specs.List.{find};
ghost use Rattle.std.specs.Str.{bytes_eq};
ghost use Rattle.tilt_code.specs.Line.{one_word, two_word};
ghost use Rattle.tilt_code.specs.Reading.{map_at, named, named_at, number_at, offset_at, pieces, pieces_left, reducer_at, word_at, Reads};

use crate::listing::{one_word, two_word};
use std::marker::Model;
use tilt_base::{OFFSET, Op1, Op2, Reducer};
use tilt_text::{shortest, until};

// Each operator on one register.
const ONES: [Op1; 3] = [Op1::Neg, Op1::Not, Op1::IsNull];

// Each operator on two registers.
const TWOS: [Op2; 15] = [
    Op2::Add,
    Op2::Sub,
    Op2::Mul,
    Op2::Div,
    Op2::Rem,
    Op2::Eq,
    Op2::Ne,
    Op2::Lt,
    Op2::Le,
    Op2::Gt,
    Op2::Ge,
    Op2::And,
    Op2::Or,
    Op2::When,
    Op2::IfNull,
];

// The words of a line from a place on, with a single blank between them. A clause sees them as a list.
#[derive(Drop)]
pub(crate) struct Words<'a> {
    left: Option<&'a [u8]>,
}

impl<'a> Model for Words<'a> {
    ghost use Rattle.std.specs.Prelude.{List, ℕ, option_map};
    ghost use Rattle.tilt_code.specs.Reading.{pieces_left};

    ghost Value = { List (List ℕ) };

    ghost view = { λ w. pieces_left 32 (option_map (λ bytes. bytes.now) w.left) };
}

impl<'a> Words<'a> {
    // The words of a line.
    pub(crate) fn new(line: &'a [u8]) -> Words<'a>
        ensures { result ≡ pieces 32 line.now }
    {
        Words { left: Some(line) }
    }

    // Whether no words are left.
    pub(crate) fn is_empty(&self) -> bool
        ensures { IsTrue result ↔ (self.now ≡ []) }
    {
        self.left.is_none()
    }

    // The next word.
    pub(crate) fn next(&mut self) -> Option<&'a [u8]>
        ensures { MatchOption result (word_at self.old ≡ None) (λ word. word_at self.old ≡ Some (word.now, self.new)) }
    {
        let (word, left) = cut(self.left?, b' ');
        self.left = left;
        Some(word)
    }

    // The number that the next word is.
    pub(crate) fn number(&mut self) -> Option<i64>
        ensures { Reads (number_at self.old) result self.new }
    {
        shortest(self.next()?)
    }

    // The number after a letter in the next word.
    pub(crate) fn named(&mut self, letter: u8) -> Option<u32>
        ensures { Reads (named_at letter self.old) result self.new }
    {
        named(letter, self.next()?)
    }

    // The offset that the next word is.
    pub(crate) fn offset(&mut self) -> Option<i64>
        ensures { Reads (offset_at self.old) result self.new }
    {
        let offset = self.number()?;
        (-OFFSET <= offset && offset <= OFFSET).then_some(offset)
    }

    // The reducer that the next word is.
    pub(crate) fn reducer(&mut self) -> Option<Reducer>
        ensures { Reads (reducer_at self.old) result self.new }
    {
        Reducer::read(self.next()?)
    }

    // The number of the map, if there is a word.
    pub(crate) fn map(&mut self) -> Option<Option<u32>>
        ensures { Reads (map_at self.old) result self.new }
    {
        if self.is_empty() {
            Some(None)
        } else {
            self.named(b'm').map(Some)
        }
    }
}

// The bytes before the first that is the mark, and those after it if there is one.
pub(crate) fn cut(bytes: &[u8], mark: u8) -> (&[u8], Option<&[u8]>)
    ensures { pieces mark bytes.now ≡ result.0.now ∷ pieces_left mark (option_map (λ left. left.now) result.1) }
{
    match until(bytes, mark) {
        Some((word, left)) => (word, Some(left)),
        None => (bytes, None),
    }
}

// The number after a letter.
pub(crate) fn named(letter: u8, word: &[u8]) -> Option<u32>
    ensures { result ≡ named letter word.now }
{
    match word {
        [first, rest @ ..] if *first == letter => u32::try_from(shortest(rest)?).ok(),
        _ => None,
    }
}

// The operator on one register with this word.
pub(crate) fn find_one(word: &[u8]) -> Option<Op1>
    ensures { result ≡ find (λ op. bytes_eq (one_word op) word.now) ONES }
{
    ONES.iter().copied().find(|op| one_word(*op) == word)
}

// The operator on two registers with this word.
pub(crate) fn find_two(word: &[u8]) -> Option<Op2>
    ensures { result ≡ find (λ op. bytes_eq (two_word op) word.now) TWOS }
{
    TWOS.iter().copied().find(|op| two_word(*op) == word)
}
