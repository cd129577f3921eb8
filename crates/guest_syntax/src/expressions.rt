//! Literals, operands and expressions.

ghost use Rattle.std.specs.Prelude.{◌≡◌, ◌≤◌, length, IfOk};
ghost use Rattle.guest_syntax.specs.reader.TokenViews.{kind_view, token_view};
ghost use Rattle.guest_syntax.specs.Tree.{operand_view, expr_view};
ghost use Rattle.guest_syntax.specs.reader.Reads.{IsTokenOf, rest_of, Parses, Reads, StaysIn};
ghost use Rattle.guest_syntax.specs.reader.Expressions.{literal_by, literal_from, operand_from, op_of, expr_from};

use crate::error::SyntaxError;
use crate::limits::NUMBER;
use crate::token::{Symbol, Token, TokenKind};
use crate::tokens::Reader;
use crate::tree::{Expr, Name, Op, Operand};

// Which operator of an expression, such as `+`, a token is; `None` where it is none of them.
fn op_of(kind: TokenKind) -> Option<Op>
    ensures { result ≡ op_of (kind_view kind.entry) }
{
    match kind {
        TokenKind::Symbol(Symbol::Plus) => Some(Op::Add),
        TokenKind::Symbol(Symbol::Minus) => Some(Op::Subtract),
        TokenKind::Symbol(Symbol::Times) => Some(Op::Multiply),
        TokenKind::Symbol(Symbol::Equal) => Some(Op::Equal),
        TokenKind::Symbol(Symbol::NotEqual) => Some(Op::NotEqual),
        TokenKind::Symbol(Symbol::Less) => Some(Op::Less),
        TokenKind::Symbol(Symbol::LessOrEqual) => Some(Op::LessOrEqual),
        TokenKind::Symbol(Symbol::Greater) => Some(Op::Greater),
        TokenKind::Symbol(Symbol::GreaterOrEqual) => Some(Op::GreaterOrEqual),
        _ => None,
    }
}

impl Reader<'_> {
    // Reads the rest of a literal, whose first token, `token`, is read already. Answers its value;
    // refuses a token that begins no literal, and a number above `NUMBER`.
    fn rest_of_literal(&mut self, token: Token) -> Result<i64, SyntaxError>
        requires place { IsTokenOf self.old (token_view token) }
        ensures gives { Reads (λ x. x) result (literal_by (kind_view token.entry.kind))
            self.old self.new }
        ensures within { StaysIn result self.old self.new }
        ensures shorter { IfOk result (λ _. length (rest_of self.new) ≤ length (rest_of self.old)) }
    {
        match token.kind {
            TokenKind::Number(n) if n <= NUMBER => Ok(n as i64),
            TokenKind::Number(_) => Err(SyntaxError::NumberTooBig(token.at)),
            TokenKind::Symbol(Symbol::Minus) => {
                let n = self.number(NUMBER)?;
                Ok(-(n as i64))
            }
            _ => Err(SyntaxError::Expected(token.at)),
        }
    }

    /// Reads a number up to `NUMBER`, with or without a minus before it, and answers its value.
    #[tactic(auto, unfolding(crate::specs::reader::Expressions::literal_from))]
    pub fn literal(&mut self) -> Result<i64, SyntaxError>
        ensures { Parses (λ x. x) result literal_from self.old self.new }
    {
        let token = self.token()?;
        self.rest_of_literal(token)
    }

    /// Reads an operand: a name, which stands for a local, or a literal.
    #[tactic(auto, unfolding(crate::specs::reader::Expressions::operand_from))]
    pub fn operand(&mut self) -> Result<Operand, SyntaxError>
        ensures { Parses operand_view result operand_from self.old self.new }
    {
        let token = self.token()?;
        if let TokenKind::Name(bytes) = token.kind {
            let text = Vec::from_slice(self.alloc, bytes)?;
            return Ok(Operand::Local(Name { text, at: token.at }));
        }
        let value = self.rest_of_literal(token)?;
        Ok(Operand::Literal(value))
    }

    /// Reads an operand, or two with an operator between them; refuses the text's end after one.
    #[tactic(auto, unfolding(crate::specs::reader::Expressions::expr_from))]
    pub fn expr(&mut self) -> Result<Expr, SyntaxError>
        ensures { Parses expr_view result expr_from self.old self.new }
    {
        let left = self.operand()?;
        let mut ahead = *self;
        let token = ahead.token()?;
        match op_of(token.kind) {
            None => Ok(Expr::Single(left)),
            Some(op) => {
                let right = ahead.operand()?;
                *self = ahead;
                Ok(Expr::Both(left, op, right))
            }
        }
    }
}
