//! The tree of a text: declarations, then threads with their statements.

ghost use Rattle.std.specs.Prelude.{◌≡◌, map};
ghost use Rattle.guest_syntax.specs.Tree.{declaration_view, thread_view, tree_view};

use crate::place::Pos;

/// A name, and where it is.
#[derive(Drop)]
pub struct Name {
    /// The bytes of the name: ASCII letters, digits and `_`.
    pub text: Vec<u8>,
    /// The place of the name's first byte.
    pub at: Pos,
}

/// A local of the thread, or a number.
#[derive(Drop)]
pub enum Operand {
    /// The local of this name.
    Local(Name),
    /// This number, with its sign.
    Literal(i64),
}

/// What an expression makes of two values: `+`, `-`, `*` wrap; signed comparisons give 1 or 0.
#[derive(Clone, Copy, PartialEq, Eq)]
pub enum Op {
    /// `+`
    Add,
    /// `-`
    Subtract,
    /// `*`
    Multiply,
    /// `==`
    Equal,
    /// `!=`
    NotEqual,
    /// `<`
    Less,
    /// `<=`
    LessOrEqual,
    /// `>`
    Greater,
    /// `>=`
    GreaterOrEqual,
}

/// An operand alone, or two with an operator between them.
#[derive(Drop)]
pub enum Expr {
    /// An operand alone.
    Single(Operand),
    /// What the operator makes of the two operands.
    Both(Operand, Op, Operand),
}

/// A statement, and where it is.
#[derive(Drop)]
#[cycle(statements)]
pub struct Placed {
    /// The place of the statement's first byte, with which its keyword begins.
    pub at: Pos,
    /// The statement.
    pub statement: Statement,
}

/// A statement of a thread, named after its keyword; `docs/LANGUAGE.md` says what each does.
#[derive(Drop)]
#[cycle(statements)]
pub enum Statement {
    /// Reads the variable into the local.
    Load {
        /// What gets the value.
        local: Name,
        /// What is read.
        variable: Name,
    },
    /// Writes the value to the variable.
    Store {
        /// What is written to.
        variable: Name,
        /// What is written to the variable.
        value: Operand,
    },
    /// Adds the value to the variable in one step; the local gets the variable's old value.
    Add {
        /// What gets the old value.
        local: Name,
        /// What is added to.
        variable: Name,
        /// What is added.
        value: Operand,
    },
    /// Sets the variable to `new` where it is `expected`, in one step; the local gets 1 or 0.
    Cas {
        /// What gets 1 where the variable is set, else 0.
        local: Name,
        /// What is compared and set.
        variable: Name,
        /// The value that the variable must have to be set.
        expected: Operand,
        /// What the variable is set to.
        new: Operand,
    },
    /// Locks the mutex of this name.
    Lock(Name),
    /// Unlocks the mutex of this name.
    Unlock(Name),
    /// Gives up the mutex and waits for the condition, as one step.
    Wait {
        /// What is waited for.
        condition: Name,
        /// What is given up while the thread waits.
        mutex: Name,
    },
    /// Wakes the thread that has waited longest for the condition of this name.
    Signal(Name),
    /// Wakes all threads that wait for the condition of this name.
    Broadcast(Name),
    /// Takes one from the semaphore of this name.
    Acquire(Name),
    /// Gives one to the semaphore of this name.
    Release(Name),
    /// Sets the local to the value.
    Set {
        /// What is set.
        local: Name,
        /// What the local is set to.
        value: Expr,
    },
    /// Stops the thread where the expression's value is 0.
    Assert(Expr),
    /// Runs the block `then` where the test's value is not 0, else the block `otherwise`, if any.
    If {
        /// What is tested.
        test: Expr,
        /// The block after the test.
        then: Vec<Placed>,
        /// The block after `else`, where there is one.
        otherwise: Option<Vec<Placed>>,
    },
    /// Runs a block a number of times.
    Repeat {
        /// How often: at least once, and at most the limit of `docs/LANGUAGE.md`.
        times: u8,
        /// The block that is repeated.
        body: Vec<Placed>,
    },
    /// Leaves the nearest `repeat`.
    Leave,
}

/// What a declaration declares, with its value before the first step.
#[derive(Clone, Copy, PartialEq, Eq)]
pub enum Object {
    /// A variable, with its value before the first step: 0 where the text gives none.
    Variable(i64),
    /// A mutex.
    Mutex,
    /// A condition.
    Condition,
    /// A semaphore, with its count before the first step.
    Semaphore(u16),
}

/// A declared object.
#[derive(Drop)]
pub struct Declaration {
    /// The object's name.
    pub name: Name,
    /// What kind of object is declared, with its value before the first step.
    pub object: Object,
}

/// A thread and its statements.
#[derive(Drop)]
pub struct Thread {
    /// The thread's name.
    pub name: Name,
    /// The thread's statements, in text order.
    pub body: Vec<Placed>,
}

/// The tree of a text. Contracts see it by `tree_view` of `specs/Tree.antt`, without memory.
#[derive(Drop)]
pub struct Tree {
    declarations: Vec<Declaration>,
    threads: Vec<Thread>,
}

impl Tree {
    /// A tree of these declarations and threads, each in text order.
    pub(crate) fn new(declarations: Vec<Declaration>, threads: Vec<Thread>) -> Tree
        ensures declarations { (tree_view result).declarations
            ≡ map declaration_view declarations.items }
        ensures threads { (tree_view result).threads ≡ map thread_view threads.items }
    {
        Tree {
            declarations,
            threads,
        }
    }

    /// The declarations of the text, in text order.
    pub fn declarations(&self) -> &[Declaration]
        ensures { map declaration_view result.now ≡ (tree_view self.now).declarations }
    {
        self.declarations.as_slice()
    }

    /// The threads of the text, in text order.
    pub fn threads(&self) -> &[Thread]
        ensures { map thread_view result.now ≡ (tree_view self.now).threads }
    {
        self.threads.as_slice()
    }
}
