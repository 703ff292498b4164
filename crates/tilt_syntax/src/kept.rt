// The tokens of a text that are kept for its query.
ghost use Rattle.std.specs.Prelude.{◌≡◌, ◌≢◌, ◌<◌, ◌∷◌, List, OnOk};
ghost use Rattle.tilt_lexer.specs.declared.token.Tok.{Tok};
ghost use Rattle.tilt_syntax.specs.Trimmed.{trimmed, with_kept};

use crate::front::is_mark;
use crate::parser::MOST;
use std::alloc::{AllocError as OutOfMemory, Global};
use tilt_lexer::{Mark, Token};

// Of each statement the first 257 tokens and its `;`, and so of the first 257 statements: enough to detect a statement that is too long,
// and too many statements.
#[derive(Drop)]
pub(crate) struct Kept {
    pub(crate) tokens: Vec<Token>,
    // How many more statements are kept.
    statements: usize,
    // How many more tokens are kept of the statement that goes on, its `;` not counted.
    room: usize,
}

impl Kept {
    // No tokens.
    pub(crate) fn new(alloc: Global) -> Kept
        ensures { (more : List Tok) → with_kept result more ≡ trimmed 257 257 more }
    {
        Kept {
            tokens: Vec::new(alloc),
            statements: MOST + 1,
            room: MOST + 1,
        }
    }

    // Continues with a token, and discards it if it isn't kept.
    pub(crate) fn add(&mut self, token: Token) -> Result<(), OutOfMemory>
        ensures { OnOk result ((more : List Tok) → with_kept self.old (token.kind ∷ more) ≡ with_kept self.new more) }
    {
        if self.statements == 0 {
            Ok(())
        } else if is_mark(&token.kind, Mark::Semicolon) {
            self.end_statement(token)
        } else {
            self.go_on(token)
        }
    }

    // Continues with a `;`.
    fn end_statement(&mut self, token: Token) -> Result<(), OutOfMemory>
        requires some { 0 < self.old.statements }
        requires last { token.kind ≡ Tok.Mark Mark.Semicolon }
        ensures { OnOk result ((more : List Tok) → with_kept self.old (token.kind ∷ more) ≡ with_kept self.new more) }
    {
        self.tokens.push(token)?;
        self.statements -= 1;
        self.room = MOST + 1;
        Ok(())
    }

    // Continues with another token.
    fn go_on(&mut self, token: Token) -> Result<(), OutOfMemory>
        requires some { 0 < self.old.statements }
        requires other { token.kind ≢ Tok.Mark Mark.Semicolon }
        ensures { OnOk result ((more : List Tok) → with_kept self.old (token.kind ∷ more) ≡ with_kept self.new more) }
    {
        if self.room == 0 {
            return Ok(());
        }
        self.tokens.push(token)?;
        self.room -= 1;
        Ok(())
    }
}
