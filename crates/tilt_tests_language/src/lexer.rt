// Tokens, and the names among them.
use crate::table::{Shown, assert_same, assert_shown};
use std::alloc::Global;
use std::test::Fail;
use tilt_lexer::{Name, Tok, Token, lex};
use tilt_testing::name_text;

// A token as text: what it is, and its places.
fn show(alloc: Global, token: &Token) -> Result<String, Fail> {
    let (start, end) = (token.start, token.end);
    Ok(match &token.kind {
        Tok::Word(name) => {
            let name = name_text(name)?;
            format!(in alloc; "name {name} {start} {end};")?
        }
        Tok::Number(number) => format!(in alloc; "number {number} {start} {end};")?,
        Tok::Key(key) => format!(in alloc; "{key:?} {start} {end};")?,
        Tok::Mark(mark) => format!(in alloc; "{mark:?} {start} {end};")?,
    })
}

// The tokens of a text, or its fault.
struct Cut;

impl Shown for Cut {
    fn shown(&self, alloc: Global, text: &str) -> Result<String, Fail> {
        match lex(alloc, text.as_bytes()) {
            Ok(tokens) => show_all(alloc, &tokens),
            Err(fault) => Ok(format!(in alloc; "{fault:?}")?),
        }
    }
}

fn show_all(alloc: Global, tokens: &[Token]) -> Result<String, Fail> {
    let mut shown = String::new(alloc);
    for token in tokens {
        let token = show(alloc, token)?;
        shown.push_str(token.as_str())?;
    }
    Ok(shown)
}

const TEXTS: &[(&str, &str)] = &[
    ("", ""),
    (" \t\n\r", ""),
    ("1x", "number 1 0 1;name x 1 2;"),
    ("a_1", "name a_1 0 3;"),
    ("_", "name _ 0 1;"),
    ("input1 t0", "name input1 0 6;name t0 7 9;"),
    ("<=<", "AtMost 0 2;Less 2 3;"),
    ("===", "Equal 0 2;Assign 2 3;"),
    ("=!=", "Assign 0 1;NotEqual 1 3;"),
    ("9223372036854775807", "number 9223372036854775807 0 19;"),
    ("007", "number 7 0 3;"),
    (
        "x[t-3]\r\n",
        "name x 0 1;OpenBracket 1 2;Time 2 3;Minus 3 4;number 3 4 5;CloseBracket 5 6;",
    ),
];

#[test]
fn texts_are_cut_into_their_longest_tokens(rt: HostRuntime) -> Result<(), Fail> {
    assert_shown(&rt, rt.alloc(), TEXTS, &Cut)
}

const FAULTS: &[(&str, &str)] = &[
    ("input x;emit@", "BadByte { at: 12 }"),
    (
        "input x; emit 9223372036854775808 over (0, 5];",
        "BigNumber { at: 14 }",
    ),
    ("00009223372036854775808", "BigNumber { at: 0 }"),
    ("!", "BadByte { at: 0 }"),
    ("=!", "BadByte { at: 1 }"),
    ("! =", "BadByte { at: 0 }"),
    ("a @ 9223372036854775808", "BadByte { at: 2 }"),
    ("é", "BadByte { at: 0 }"),
];

#[test]
fn the_first_faulty_place_is_refused(rt: HostRuntime) -> Result<(), Fail> {
    assert_shown(&rt, rt.alloc(), FAULTS, &Cut)
}

// Each is one token, which is as long as the text.
const KEYS: &[(&str, &str)] = &[
    ("input", "Input 0 5;"),
    ("let", "Let 0 3;"),
    ("emit", "Emit 0 4;"),
    ("over", "Over 0 4;"),
    ("every", "Every 0 5;"),
    ("from", "From 0 4;"),
    ("if", "If 0 2;"),
    ("then", "Then 0 4;"),
    ("else", "Else 0 4;"),
    ("when", "When 0 4;"),
    ("or", "Or 0 2;"),
    ("and", "And 0 3;"),
    ("not", "Not 0 3;"),
    ("true", "TrueWord 0 4;"),
    ("false", "FalseWord 0 5;"),
    ("isnull", "IsNull 0 6;"),
    ("ifnull", "IfNull 0 6;"),
    ("t", "Time 0 1;"),
    ("sum", "Reducer(Sum) 0 3;"),
    ("avg", "Reducer(Avg) 0 3;"),
    ("min", "Reducer(Min) 0 3;"),
    ("max", "Reducer(Max) 0 3;"),
    ("count", "Reducer(Count) 0 5;"),
    ("first", "Reducer(First) 0 5;"),
    ("last", "Reducer(Last) 0 4;"),
    ("any", "Reducer(Any) 0 3;"),
    ("all", "Reducer(All) 0 3;"),
];

#[test]
fn each_reserved_word_is_its_own_token(rt: HostRuntime) -> Result<(), Fail> {
    assert_shown(&rt, rt.alloc(), KEYS, &Cut)
}

const MARKS: &[(&str, &str)] = &[
    (";", "Semicolon 0 1;"),
    ("=", "Assign 0 1;"),
    ("==", "Equal 0 2;"),
    ("!=", "NotEqual 0 2;"),
    ("<", "Less 0 1;"),
    ("<=", "AtMost 0 2;"),
    (">", "Greater 0 1;"),
    (">=", "AtLeast 0 2;"),
    ("+", "Plus 0 1;"),
    ("-", "Minus 0 1;"),
    ("*", "Star 0 1;"),
    ("/", "Slash 0 1;"),
    ("%", "Percent 0 1;"),
    ("(", "OpenParen 0 1;"),
    (")", "CloseParen 0 1;"),
    ("[", "OpenBracket 0 1;"),
    ("]", "CloseBracket 0 1;"),
    (",", "Comma 0 1;"),
    (":", "Colon 0 1;"),
];

#[test]
fn each_sign_is_its_own_token(rt: HostRuntime) -> Result<(), Fail> {
    assert_shown(&rt, rt.alloc(), MARKS, &Cut)
}

const NAMES: &[(&str, bool)] = &[
    ("x", true),
    ("_", true),
    ("a_1", true),
    ("Zz9", true),
    ("input", true),
    ("", false),
    ("1x", false),
    ("a-b", false),
    ("a ", false),
    ("é", false),
];

// Whether the text is read as a name. Of a name the result says whether a copy has the same bytes.
fn name_is_copied(alloc: Global, text: &str) -> Result<Option<bool>, Fail> {
    Ok(match Name::read(alloc, text.as_bytes())? {
        Some(name) => {
            let copy = name.copy()?;
            Some(copy.bytes() == text.as_bytes())
        }
        None => None,
    })
}

#[test]
fn only_words_are_names(rt: HostRuntime) -> Result<(), Fail> {
    for (text, is_name) in NAMES {
        let found = name_is_copied(rt.alloc(), text)?;
        let want = if *is_name { Some(true) } else { None };
        assert_same(&rt, &found, &want, text);
    }
    Ok(())
}
