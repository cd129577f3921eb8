//! Reading declarations and threads, up to the end of a text.

ghost use Rattle.std.specs.Prelude.{map, IfErr, option_map};
ghost use Rattle.guest_syntax.specs.{Answers.RefusalIn, Place.start};
ghost use Rattle.guest_syntax.specs.Tree.{declaration_view, thread_view, tree_view};
ghost use Rattle.guest_syntax.specs.reader.{Gives.Gives, Items.all_from};
ghost use Rattle.guest_syntax.specs.reader.Reads.{rest_of, Parses, Reads, StaysIn, ItemTakesToken};
ghost use Rattle.guest_syntax.specs.reader.Trees.{variable_from, plain_from, semaphore_from, declaration_turn, thread_from, thread_turn, tree_from};

use crate::error::SyntaxError;
use crate::limits::{COUNT, DEPTH};
use crate::token::{Keyword, Symbol, TokenKind};
use crate::tokens::Reader;
use crate::tree::{Declaration, Object, Thread, Tree};

impl Reader<'_> {
    // Reads the rest of a variable's declaration, after `var`: `x = 1;`, or `x;` for the value 0.
    #[tactic(auto, unfolding(crate::specs::reader::Trees::variable_from))]
    fn rest_of_variable(&mut self) -> Result<Declaration, SyntaxError>
        ensures { Parses declaration_view result variable_from self.old self.new }
    {
        let name = self.name()?;
        let token = self.token()?;
        match token.kind {
            TokenKind::Symbol(Symbol::End) => {
                let object = Object::Variable(0);
                Ok(Declaration { name, object })
            }
            TokenKind::Symbol(Symbol::Assign) => {
                let object = Object::Variable(self.literal()?);
                self.symbol(Symbol::End)?;
                Ok(Declaration { name, object })
            }
            _ => Err(SyntaxError::Expected(token.at)),
        }
    }

    // Reads the rest, as `m;`, of a mutex's or condition's declaration; `object` says which it is.
    #[tactic(auto, unfolding(crate::specs::reader::Trees::plain_from))]
    fn rest_of_plain_object(&mut self, object: Object) -> Result<Declaration, SyntaxError>
        ensures { Parses declaration_view result (plain_from object) self.old self.new }
    {
        let name = self.one_name()?;
        Ok(Declaration { name, object })
    }

    // Reads the rest of a semaphore's declaration, as `s = 1;`, after `sem`.
    #[tactic(auto, unfolding(crate::specs::reader::Trees::semaphore_from))]
    fn rest_of_semaphore(&mut self) -> Result<Declaration, SyntaxError>
        ensures { Parses declaration_view result semaphore_from self.old self.new }
    {
        let name = self.name()?;
        self.symbol(Symbol::Assign)?;
        let count = self.number(COUNT)?;
        self.symbol(Symbol::End)?;
        let object = Object::Semaphore(count as u16);
        Ok(Declaration { name, object })
    }

    // Reads the next declaration; `None`, with nothing read, if another token or the end is next.
    #[tactic(auto, unfolding(crate::specs::reader::Trees::declaration_turn))]
    fn next_declaration(&mut self) -> Result<Option<Declaration>, SyntaxError>
        ensures gives { Reads (option_map declaration_view) result declaration_turn
            self.old self.new }
        ensures within { StaysIn result self.old self.new }
        ensures shorter { ItemTakesToken result self.old self.new }
    {
        let mut ahead = *self;
        let Some(token) = ahead.next_token()? else {
            return Ok(None);
        };
        let declaration = match token.kind {
            TokenKind::Keyword(Keyword::Var) => ahead.rest_of_variable()?,
            TokenKind::Keyword(Keyword::Mutex) => ahead.rest_of_plain_object(Object::Mutex)?,
            TokenKind::Keyword(Keyword::Cond) => ahead.rest_of_plain_object(Object::Condition)?,
            TokenKind::Keyword(Keyword::Sem) => ahead.rest_of_semaphore()?,
            _ => return Ok(None),
        };
        *self = ahead;
        Ok(Some(declaration))
    }

    // Reads all declarations that come next, up to a token that begins none, or the text's end.
    fn declarations(&mut self) -> Result<Vec<Declaration>, SyntaxError>
        ensures gives { Reads (λ x. map declaration_view x.items) result
            (all_from declaration_turn) self.old self.new }
        ensures within { StaysIn result self.old self.new }
    {
        let mut all = Vec::new(self.alloc);
        'items: loop {
            match self.next_declaration()? {
                None => return Ok(all),
                Some(declaration) => all.push(declaration)?,
            }
        }
    }

    // Reads a thread's name and block, after `thread`. In the block, others may nest `DEPTH` deep.
    #[tactic(auto, unfolding(crate::specs::reader::Trees::thread_from))]
    fn rest_of_thread(&mut self) -> Result<Thread, SyntaxError>
        ensures { Parses thread_view result thread_from self.old self.new }
    {
        let name = self.name()?;
        let body = self.block(DEPTH + 1)?;
        Ok(Thread { name, body })
    }

    // Reads the next thread; `None` at the end of the text; refuses all else.
    #[tactic(auto, unfolding(crate::specs::reader::Trees::thread_turn))]
    fn next_thread(&mut self) -> Result<Option<Thread>, SyntaxError>
        ensures gives { Reads (option_map thread_view) result thread_turn self.old self.new }
        ensures within { StaysIn result self.old self.new }
        ensures shorter { ItemTakesToken result self.old self.new }
    {
        let Some(token) = self.next_token()? else {
            return Ok(None);
        };
        match token.kind {
            TokenKind::Keyword(Keyword::Thread) => Ok(Some(self.rest_of_thread()?)),
            _ => Err(SyntaxError::Expected(token.at)),
        }
    }

    // Reads all threads that come next, up to the end of the text; refuses all else.
    fn threads(&mut self) -> Result<Vec<Thread>, SyntaxError>
        ensures gives { Reads (λ x. map thread_view x.items) result (all_from thread_turn)
            self.old self.new }
        ensures within { StaysIn result self.old self.new }
    {
        let mut all = Vec::new(self.alloc);
        'items: loop {
            match self.next_thread()? {
                None => return Ok(all),
                Some(thread) => all.push(thread)?,
            }
        }
    }

    /// Reads the rest of the text as a tree: declarations, and then threads up to the text's end.
    #[tactic(auto, unfolding(crate::specs::reader::Trees::tree_from))]
    pub fn tree(&mut self) -> Result<Tree, SyntaxError>
        ensures gives { Gives tree_view result (tree_from (rest_of self.old)) }
        ensures place { IfErr result (RefusalIn start self.old.cursor.text.now) }
    {
        let declarations = self.declarations()?;
        let threads = self.threads()?;
        Ok(Tree::new(declarations, threads))
    }
}
