//! Statements that hold no block.

ghost use Rattle.guest_syntax.specs.{Tree.{name_view, stmt_view}, reader.Reads.{IsPlaceOf, Parses}};
ghost use Rattle.guest_syntax.specs.reader.Statements.{one_name_from, two_names_from, store_from, add_from, cas_from, set_from, assert_from, named_by, simple_by};

use crate::error::SyntaxError;
use crate::place::Pos;
use crate::token::{Keyword, Symbol};
use crate::tokens::Reader;
use crate::tree::{Name, Statement};

impl Reader<'_> {
    /// Reads a name, and the `;` that ends its statement or declaration.
    #[tactic(auto, unfolding(crate::specs::reader::Statements::one_name_from))]
    pub fn one_name(&mut self) -> Result<Name, SyntaxError>
        ensures { Parses name_view result one_name_from self.old self.new }
    {
        let name = self.name()?;
        self.symbol(Symbol::End)?;
        Ok(name)
    }

    // Reads two names, and the `;` that ends their statement.
    #[tactic(auto, unfolding(crate::specs::reader::Statements::two_names_from))]
    fn two_names(&mut self) -> Result<(Name, Name), SyntaxError>
        ensures { Parses (λ x. (name_view x.0, name_view x.1)) result two_names_from
            self.old self.new }
    {
        let first = self.name()?;
        let second = self.name()?;
        self.symbol(Symbol::End)?;
        Ok((first, second))
    }

    // Reads the rest of a `store`, after its keyword: a variable, a value and `;`.
    #[tactic(auto, unfolding(crate::specs::reader::Statements::store_from))]
    fn store_statement(&mut self) -> Result<Statement, SyntaxError>
        ensures { Parses stmt_view result store_from self.old self.new }
    {
        let variable = self.name()?;
        let value = self.operand()?;
        self.symbol(Symbol::End)?;
        Ok(Statement::Store { variable, value })
    }

    // Reads the rest of an `add`, after its keyword: a local, a variable, a value and `;`.
    #[tactic(auto, unfolding(crate::specs::reader::Statements::add_from))]
    fn add_statement(&mut self) -> Result<Statement, SyntaxError>
        ensures { Parses stmt_view result add_from self.old self.new }
    {
        let local = self.name()?;
        let variable = self.name()?;
        let value = self.operand()?;
        self.symbol(Symbol::End)?;
        Ok(Statement::Add {
            local,
            variable,
            value,
        })
    }

    // Reads the rest of a `cas`, after its keyword: local, variable, expected and new value, `;`.
    #[tactic(auto, unfolding(crate::specs::reader::Statements::cas_from))]
    fn cas_statement(&mut self) -> Result<Statement, SyntaxError>
        ensures { Parses stmt_view result cas_from self.old self.new }
    {
        let local = self.name()?;
        let variable = self.name()?;
        let expected = self.operand()?;
        let new = self.operand()?;
        self.symbol(Symbol::End)?;
        Ok(Statement::Cas {
            local,
            variable,
            expected,
            new,
        })
    }

    // Reads the rest of a `set`, after its keyword: a local, an expression and `;`.
    #[tactic(auto, unfolding(crate::specs::reader::Statements::set_from))]
    fn set_statement(&mut self) -> Result<Statement, SyntaxError>
        ensures { Parses stmt_view result set_from self.old self.new }
    {
        let local = self.name()?;
        let value = self.expr()?;
        self.symbol(Symbol::End)?;
        Ok(Statement::Set { local, value })
    }

    // Reads the rest of an `assert`, after its keyword: an expression and `;`.
    #[tactic(auto, unfolding(crate::specs::reader::Statements::assert_from))]
    fn assert_statement(&mut self) -> Result<Statement, SyntaxError>
        ensures { Parses stmt_view result assert_from self.old self.new }
    {
        let test = self.expr()?;
        self.symbol(Symbol::End)?;
        Ok(Statement::Assert(test))
    }

    // Reads the name and the `;` of a statement of one name, as `lock m;`, after its `keyword`,
    // which is at `at`. Refuses a keyword that begins no statement of one name.
    fn one_name_statement(&mut self, keyword: Keyword, at: Pos) -> Result<Statement, SyntaxError>
        requires place { IsPlaceOf self.old at }
        ensures { Parses stmt_view result (named_by keyword) self.old self.new }
    {
        match keyword {
            Keyword::Lock => Ok(Statement::Lock(self.one_name()?)),
            Keyword::Unlock => Ok(Statement::Unlock(self.one_name()?)),
            Keyword::Signal => Ok(Statement::Signal(self.one_name()?)),
            Keyword::Broadcast => Ok(Statement::Broadcast(self.one_name()?)),
            Keyword::Acquire => Ok(Statement::Acquire(self.one_name()?)),
            Keyword::Release => Ok(Statement::Release(self.one_name()?)),
            _ => Err(SyntaxError::Expected(at)),
        }
    }

    /// Reads the rest of a statement without a block, after its `keyword`, which is at `at`.
    /// Refuses a keyword that begins no statement without a block.
    pub fn simple_statement(&mut self, keyword: Keyword, at: Pos) -> Result<Statement, SyntaxError>
        requires place { IsPlaceOf self.old at }
        ensures { Parses stmt_view result (simple_by keyword) self.old self.new }
    {
        match keyword {
            Keyword::Load => {
                let (local, variable) = self.two_names()?;
                Ok(Statement::Load { local, variable })
            }
            Keyword::Wait => {
                let (condition, mutex) = self.two_names()?;
                Ok(Statement::Wait { condition, mutex })
            }
            Keyword::Store => self.store_statement(),
            Keyword::Add => self.add_statement(),
            Keyword::Cas => self.cas_statement(),
            Keyword::Set => self.set_statement(),
            Keyword::Assert => self.assert_statement(),
            Keyword::Leave => {
                self.symbol(Symbol::End)?;
                Ok(Statement::Leave)
            }
            _ => self.one_name_statement(keyword, at),
        }
    }
}
