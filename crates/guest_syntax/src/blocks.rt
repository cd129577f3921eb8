//! Blocks, and the statements that hold them.

ghost use Rattle.std.specs.Prelude.{◌≡◌, map, option_map};
ghost use Rattle.guest_syntax.specs.reader.TokenViews.{kind_view};
ghost use Rattle.guest_syntax.specs.Tree.{stmt_view, placed_view, block_view};
ghost use Rattle.guest_syntax.specs.reader.Reads.{IsPlaceOf, Parses, Reads, StaysIn, TakesToken};
ghost use Rattle.guest_syntax.specs.reader.Items.{all_from};
ghost use Rattle.guest_syntax.specs.reader.Statements.{is_else, choice_from, repeat_from, statement_by, turn_from, block_from};

use crate::error::SyntaxError;
use crate::place::Pos;
use crate::token::{Keyword, Symbol, TokenKind};
use crate::tokens::Reader;
use crate::tree::{Placed, Statement};

// Whether a token is the keyword `else`.
#[tactic(auto, unfolding(crate::specs::reader::Statements::is_else))]
fn is_else(kind: TokenKind) -> bool
    ensures { result ≡ is_else (kind_view kind.entry) }
{
    matches!(kind, TokenKind::Keyword(Keyword::Else))
}

impl Reader<'_> {
    // Reads the rest of an `if`, after its keyword: test, block and, if `else` is next, its block.
    // Refuses blocks nested more than `room` deep, and the text's end right after the first block.
    #[tactic(auto, unfolding(crate::specs::reader::Statements::choice_from))]
    #[cycle(block)]
    fn if_statement(&mut self, room: u32) -> Result<Statement, SyntaxError>
        ensures gives { Reads stmt_view result (choice_from (block_from room)) self.old self.new }
        ensures within { StaysIn result self.old self.new }
        ensures shorter { TakesToken result self.old self.new }
    {
        let test = self.expr()?;
        let then = self.block(room)?;
        let mut ahead = *self;
        let token = ahead.token()?;
        if is_else(token.kind) {
            let otherwise = ahead.block(room)?;
            *self = ahead;
            return Ok(Statement::If {
                test,
                then,
                otherwise: Some(otherwise),
            });
        }
        Ok(Statement::If {
            test,
            then,
            otherwise: None,
        })
    }

    // Reads the rest of a `repeat`: count and block. Refuses blocks nested more than `room` deep.
    #[tactic(auto, unfolding(crate::specs::reader::Statements::repeat_from))]
    #[cycle(block)]
    fn repeat_statement(&mut self, room: u32) -> Result<Statement, SyntaxError>
        ensures { Parses stmt_view result (repeat_from (block_from room)) self.old self.new }
    {
        let times = self.repeat_count()?;
        let body = self.block(room)?;
        Ok(Statement::Repeat { times, body })
    }

    // Reads the rest of a statement, after its `keyword`, which is at `at`. Refuses a keyword that
    // begins no statement, and blocks nested more than `room` deep.
    #[cycle(block)]
    fn statement(&mut self, keyword: Keyword, at: Pos, room: u32) -> Result<Statement, SyntaxError>
        requires place { IsPlaceOf self.old at }
        ensures { Parses stmt_view result (statement_by (block_from room) keyword)
            self.old self.new }
    {
        match keyword {
            Keyword::If => self.if_statement(room),
            Keyword::Repeat => self.repeat_statement(room),
            _ => self.simple_statement(keyword, at),
        }
    }

    // Reads the next statement of a block; `None` where the `}` that ends the block comes instead,
    // which is read, too. Refuses all else, and blocks nested more than `room` deep.
    #[tactic(auto, unfolding(crate::specs::reader::Statements::turn_from))]
    #[cycle(block)]
    fn next_statement(&mut self, room: u32) -> Result<Option<Placed>, SyntaxError>
        ensures { Parses (option_map placed_view) result (turn_from (block_from room))
            self.old self.new }
    {
        let token = self.token()?;
        match token.kind {
            TokenKind::Symbol(Symbol::Close) => Ok(None),
            TokenKind::Keyword(keyword) => {
                let at = token.at;
                let statement = self.statement(keyword, at, room)?;
                Ok(Some(Placed { at, statement }))
            }
            _ => Err(SyntaxError::Expected(token.at)),
        }
    }

    // Reads the rest of a block, after its `{`: its statements and its `}`. Refuses blocks in it
    // that are nested more than `room` deep.
    #[cycle(block)]
    fn rest_of_block(&mut self, room: u32) -> Result<Vec<Placed>, SyntaxError>
        ensures gives { Reads (λ x. map placed_view x.items) result
            (all_from (turn_from (block_from room))) self.old self.new }
        ensures within { StaysIn result self.old self.new }
        ensures shorter { TakesToken result self.old self.new }
    {
        let mut all = Vec::new(self.alloc);
        'items: loop {
            match self.next_statement(room)? {
                None => return Ok(all),
                Some(statement) => all.push(statement)?,
            }
        }
    }

    /// Reads a block and its braces; refuses blocks nested more than `room` deep, this one counted.
    #[tactic(auto, unfolding(crate::specs::reader::Statements::block_from))]
    #[cycle(block)]
    pub fn block(&mut self, room: u32) -> Result<Vec<Placed>, SyntaxError>
        ensures { Parses (λ x. block_view x.items) result (block_from room) self.old self.new }
    {
        let brace = self.symbol(Symbol::Open)?;
        if room == 0 {
            return Err(SyntaxError::TooDeep(brace));
        }
        self.rest_of_block(room - 1)
    }
}
