// Texts, and the trees that they are read as.
use crate::table::{Shown, assert_same, assert_shown};
use std::alloc::Global;
use std::process::Abort;
use std::test::Fail;
use tilt_base::Span;
use tilt_lexer::{LexFault, lex};
use tilt_syntax::{
    Every, Expr, Statement, SyntaxFault, TextFault, parse, parse_expression, read_text,
};
use tilt_testing::{name_text, query_of, repeated};

// Expressions, and their trees with each operator before its operands; nothing where the text is none.
const EXPRESSIONS: &[(&str, &str)] = &[
    ("a when b when c", "(When (When a b) c)"),
    ("(a when b) when c", "(When (When a b) c)"),
    ("a when (b when c)", "(When a (When b c))"),
    ("a or b when c or d", "(When (Or a b) (Or c d))"),
    ("a or b or c", "(Or (Or a b) c)"),
    ("a or b and c", "(Or a (And b c))"),
    ("a and b or c", "(Or (And a b) c)"),
    ("a and b and c", "(And (And a b) c)"),
    ("not a and not b", "(And (Not a) (Not b))"),
    ("not not a", "(Not (Not a))"),
    ("not a == b", "(Not (Eq a b))"),
    ("a == not b", ""),
    ("a < b < c", ""),
    ("(a < b) != (c >= d)", "(Ne (Lt a b) (Ge c d))"),
    ("a + b <= c - d", "(Le (Add a b) (Sub c d))"),
    ("a - b - c", "(Sub (Sub a b) c)"),
    ("a - (b - c)", "(Sub a (Sub b c))"),
    ("a + b * c", "(Add a (Mul b c))"),
    ("a * b + c", "(Add (Mul a b) c)"),
    ("a / b % c * d", "(Mul (Rem (Div a b) c) d)"),
    ("- 1", "(Neg 1)"),
    ("--a * -b", "(Mul (Neg (Neg a)) (Neg b))"),
    ("a - -1", "(Sub a (Neg 1))"),
    ("-(a > b)", "(Neg (Gt a b))"),
    ("-not a", ""),
    ("if a then b else c when d", "(If a b (When c d))"),
    ("if a then if b then c else d else e", "(If a (If b c d) e)"),
    ("1 + if a then b else c", ""),
    ("1 + (if a then b else c)", "(Add 1 (If a b c))"),
    ("if a then b", ""),
    ("x[t]", "x"),
    ("x[t+3]", "x@3"),
    ("x[t-9223372036854775807]", "x@-9223372036854775807"),
    ("x[t-0]", "x"),
    ("sum(x[t+1:t+4])", "(Sum x 1 4)"),
    ("last(x[t-3:t])", "(Last x -3 0)"),
    ("isnull(a or true)", "(IsNull (Or a true))"),
    ("ifnull(a, b when false)", "(IfNull a (When b false))"),
    ("", ""),
    ("()", ""),
    ("(a", ""),
    ("a)", ""),
    ("a b", ""),
    ("a +", ""),
    ("t", ""),
    ("x[3]", ""),
    ("x[t+a]", ""),
    ("x[t--1]", ""),
    ("sum(x)", ""),
    ("sum(x[t])", ""),
    ("sum(over[t:t])", ""),
    ("isnull a", ""),
    ("ifnull(a)", ""),
];

fn show(alloc: Global, expr: &Expr) -> Result<String, Fail> {
    Ok(match expr {
        Expr::Num(number) => format!(in alloc; "{number}")?,
        Expr::Truth(truth) => format!(in alloc; "{truth}")?,
        Expr::Read { name, offset: 0 } => String::from_str(alloc, name_text(name)?)?,
        Expr::Read { name, offset } => {
            let name = name_text(name)?;
            format!(in alloc; "{name}@{offset}")?
        }
        Expr::Reduce {
            reducer,
            name,
            from,
            to,
        } => {
            let name = name_text(name)?;
            format!(in alloc; "({reducer:?} {name} {from} {to})")?
        }
        Expr::One(op, a) => {
            let a = show(alloc, a)?;
            format!(in alloc; "({op:?} {a})")?
        }
        Expr::Two(op, a, b) => {
            let a = show(alloc, a)?;
            let b = show(alloc, b)?;
            format!(in alloc; "({op:?} {a} {b})")?
        }
        Expr::If(c, a, b) => {
            let c = show(alloc, c)?;
            let a = show(alloc, a)?;
            let b = show(alloc, b)?;
            format!(in alloc; "(If {c} {a} {b})")?
        }
    })
}

// The tree that the text is, or nothing.
struct Parsed;

impl Shown for Parsed {
    fn shown(&self, alloc: Global, text: &str) -> Result<String, Fail> {
        let tokens = lex(alloc, text.as_bytes())?;
        if tokens.len() > 256 {
            return Err("the text is too long".into());
        }
        match parse_expression(alloc, &tokens)? {
            Some(expr) => show(alloc, &expr),
            None => Ok(String::new(alloc)),
        }
    }
}

#[test]
fn expressions_are_read_as_they_bind(rt: HostRuntime) -> Result<(), Fail> {
    assert_shown(&rt, rt.alloc(), EXPRESSIONS, &Parsed)
}

fn show_over(alloc: Global, over: Option<Span>) -> Result<String, Fail> {
    Ok(match over {
        Some(Span { start, end }) => format!(in alloc; " over {start} {end}")?,
        None => String::new(alloc),
    })
}

fn show_every(alloc: Global, every: Option<Every>) -> Result<String, Fail> {
    Ok(match every {
        Some(Every { period, offset }) => format!(in alloc; " every {period} from {offset}")?,
        None => String::new(alloc),
    })
}

fn show_statement(alloc: Global, statement: &Statement) -> Result<String, Fail> {
    Ok(match statement {
        Statement::Input { name } => {
            let name = name_text(name)?;
            format!(in alloc; "input {name};")?
        }
        Statement::Let {
            name,
            expr,
            over,
            every,
        } => {
            let name = name_text(name)?;
            let expr = show(alloc, expr)?;
            let over = show_over(alloc, *over)?;
            let every = show_every(alloc, *every)?;
            format!(in alloc; "let {name} {expr}{over}{every};")?
        }
        Statement::Emit { expr, over, every } => {
            let expr = show(alloc, expr)?;
            let over = show_over(alloc, Some(*over))?;
            let every = show_every(alloc, *every)?;
            format!(in alloc; "emit {expr}{over}{every};")?
        }
    })
}

// The statements of a query.
struct Statements;

impl Shown for Statements {
    fn shown(&self, alloc: Global, text: &str) -> Result<String, Fail> {
        let query = query_of(alloc, text)?;
        let mut shown = String::new(alloc);
        for statement in query.statements() {
            let statement = show_statement(alloc, statement)?;
            shown.push_str(statement.as_str())?;
        }
        Ok(shown)
    }
}

const QUERIES: &[(&str, &str)] = &[
    ("emit 1 over (0, 5];", "emit 1 over 0 5;"),
    (
        "input x; let y = x over (-10, 10] every 5; let z = y every 2; emit z over (5, -0] every 3;",
        "input x;let y x over -10 10 every 5 from 0;let z y every 2 from 0;emit z over 5 0 every 3 from 0;",
    ),
    (
        "input x; let y = x every 5 from 0; let z = y over (1, 2] every 2 from 7; emit z over (5, 6] every 3 from 02;",
        "input x;let y x every 5 from 0;let z y over 1 2 every 2 from 7;emit z over 5 6 every 3 from 2;",
    ),
    (
        "let a = 1; input b; let c = a when b; emit c over (0, 1];",
        "let a 1;input b;let c (When a b);emit c over 0 1;",
    ),
];

#[test]
fn statements_are_read_in_order(rt: HostRuntime) -> Result<(), Fail> {
    assert_shown(&rt, rt.alloc(), QUERIES, &Statements)
}

const FAULTS: &[(&str, SyntaxFault)] = &[
    ("", SyntaxFault::EmitPlace { statement: 1 }),
    (";", SyntaxFault::Syntax { statement: 1 }),
    ("input x;", SyntaxFault::EmitPlace { statement: 1 }),
    (
        "input x; emit x over (0, 5]",
        SyntaxFault::Syntax { statement: 2 },
    ),
    (
        "emit 1 over (0, 5]; input x;",
        SyntaxFault::EmitPlace { statement: 1 },
    ),
    (
        "emit 1 over (0, 5]; input t;",
        SyntaxFault::EmitPlace { statement: 1 },
    ),
    (
        "input t; emit 1 over (0, 5];",
        SyntaxFault::Syntax { statement: 1 },
    ),
    (
        "input x; let sum = x; emit;",
        SyntaxFault::Syntax { statement: 2 },
    ),
    (
        "input x; let y = x; let z = y;",
        SyntaxFault::EmitPlace { statement: 3 },
    ),
    ("emit 1;", SyntaxFault::Syntax { statement: 1 }),
    ("emit 1 over (0, 5);", SyntaxFault::Syntax { statement: 1 }),
    (
        "emit 1 over (0, --5];",
        SyntaxFault::Syntax { statement: 1 },
    ),
    (
        "emit 1 every 5 over (0, 5];",
        SyntaxFault::Syntax { statement: 1 },
    ),
    (
        "emit 1 over (0, 5] every -5;",
        SyntaxFault::Syntax { statement: 1 },
    ),
    // An offset is a number after a period, and its word is no name.
    (
        "emit 1 over (0, 5] every 5 from;",
        SyntaxFault::Syntax { statement: 1 },
    ),
    (
        "emit 1 over (0, 5] every 5 from -1;",
        SyntaxFault::Syntax { statement: 1 },
    ),
    (
        "emit 1 over (0, 5] every from 1;",
        SyntaxFault::Syntax { statement: 1 },
    ),
    (
        "emit 1 over (0, 5] from 1;",
        SyntaxFault::Syntax { statement: 1 },
    ),
    (
        "emit 1 over (0, 5] every 5 from 1 from 2;",
        SyntaxFault::Syntax { statement: 1 },
    ),
    (
        "input from; emit 1 over (0, 5];",
        SyntaxFault::Syntax { statement: 1 },
    ),
    (
        "input x; emit from over (0, 5];",
        SyntaxFault::Syntax { statement: 2 },
    ),
];

// Ends the test unless this is the fault for which the text is no query.
fn assert_fault(
    rt: &impl Abort,
    alloc: Global,
    text: &str,
    want: Option<&SyntaxFault>,
) -> Result<(), Fail> {
    let tokens = lex(alloc, text.as_bytes())?;
    let found = parse(alloc, &tokens).err();
    assert_same(rt, &found.as_ref(), &want, &text);
    Ok(())
}

#[test]
fn the_first_faulty_statement_is_refused(rt: HostRuntime) -> Result<(), Fail> {
    for (text, want) in FAULTS {
        assert_fault(&rt, rt.alloc(), text, Some(want))?;
    }
    Ok(())
}

// How a text starts, a part that comes so often after it, how it ends, and its fault.
const LONG: &[(&str, &str, usize, &str, Option<SyntaxFault>)] = &[
    // 256 and 257 statements, and tokens of one statement.
    ("", "input x;", 255, "emit 1 over (0, 5];", None),
    (
        "",
        "input x;",
        256,
        "emit 1 over (0, 5];",
        Some(SyntaxFault::TooManyStatements),
    ),
    ("", ";", 257, "", Some(SyntaxFault::TooManyStatements)),
    ("emit ", "-", 247, "1 over (0, 5];", None),
    (
        "emit ",
        "-",
        248,
        "1 over (0, 5];",
        Some(SyntaxFault::StatementTooLong { statement: 1 }),
    ),
    (
        "input x; emit ",
        "(",
        300,
        "",
        Some(SyntaxFault::StatementTooLong { statement: 2 }),
    ),
    (
        "input; emit ",
        "(",
        300,
        "",
        Some(SyntaxFault::Syntax { statement: 1 }),
    ),
    (
        "emit ",
        "(",
        255,
        "",
        Some(SyntaxFault::Syntax { statement: 1 }),
    ),
];

#[test]
fn sizes_are_bounded(rt: HostRuntime) -> Result<(), Fail> {
    for (start, part, times, end, want) in LONG {
        let text = repeated(rt.alloc(), start, part, *times, end)?;
        assert_fault(&rt, rt.alloc(), text.as_str(), want.as_ref())?;
    }
    Ok(())
}

// The same for a text that need not be few tokens: the fault for which it is none.
const LONGER: &[(&str, &str, usize, &str, Option<TextFault>)] = &[
    // 256 and 257 statements, and tokens of one statement, with a `;` and without.
    ("", "input x;", 255, "emit 1 over (0, 5];", None),
    ("", "input x;", 256, "emit 1 over (0, 5];", TOO_MANY),
    ("emit ", "-", 247, "1 over (0, 5];", None),
    ("emit ", "-", 248, "1 over (0, 5];", TOO_LONG_1),
    ("emit ", "-", 255, "", REFUSED_1),
    ("emit ", "-", 256, "", TOO_LONG_1),
    ("emit ", "-", 254, ";", REFUSED_1),
    ("emit ", "-", 255, ";", TOO_LONG_1),
    ("input x;emit ", "-", 600, ";input y;", TOO_LONG_2),
    ("input;emit ", "-", 600, ";", REFUSED_1),
    // A faulty place is reported before all of them.
    (
        "",
        ";",
        600,
        "@",
        Some(TextFault::Lexical(LexFault::BadByte { at: 600 })),
    ),
    (
        "emit ",
        "-",
        600,
        " 9223372036854775808",
        Some(TextFault::Lexical(LexFault::BigNumber { at: 606 })),
    ),
    // No tokens.
    (
        "",
        " ",
        600,
        "",
        Some(TextFault::Refused(SyntaxFault::EmitPlace { statement: 1 })),
    ),
];

const TOO_MANY: Option<TextFault> = Some(TextFault::Refused(SyntaxFault::TooManyStatements));

const TOO_LONG_1: Option<TextFault> = Some(TextFault::Refused(SyntaxFault::StatementTooLong {
    statement: 1,
}));

const TOO_LONG_2: Option<TextFault> = Some(TextFault::Refused(SyntaxFault::StatementTooLong {
    statement: 2,
}));

const REFUSED_1: Option<TextFault> = Some(TextFault::Refused(SyntaxFault::Syntax { statement: 1 }));

#[test]
fn a_text_may_have_more_tokens_than_a_query(rt: HostRuntime) -> Result<(), Fail> {
    for (start, part, times, end, want) in LONGER {
        let text = repeated(rt.alloc(), start, part, *times, end)?;
        let found = read_text(rt.alloc(), text.as_bytes()).err();
        assert_same(&rt, &found, want, &text.as_str());
    }
    Ok(())
}
