//! The names and places that an explanation is told with: a guest's file, text and program.

ghost use Rattle.std.specs.Prelude.{◌≡◌, ℕ, length};
ghost use Rattle.guest_code.specs.{Program.thread_at, SourceMap.{places_of, locals_of}};

use crate::object::Object;
use guest_code::program::{Instruction, Program};
use guest_code::source_map::SourceMap;
use guest_syntax::Pos;

/// A guest's file and text, and the program that the text spells, which has the names.
#[derive(Drop)]
pub struct Source<'a> {
    /// The name of the file.
    pub file: &'a [u8],
    /// The text in the file.
    pub text: &'a [u8],
    /// The program that the text spells.
    pub program: &'a Program,
    /// The place of each instruction in the text, and the names of the locals.
    pub map: &'a SourceMap,
    ghost places: { (t : ℕ) →
        length (places_of map.now t) ≡ length (thread_at program.now t).code },
    ghost locals: { (t : ℕ) → length (locals_of map.now t) ≡ (thread_at program.now t).locals },
}

impl<'a> Source<'a> {
    /// The name of a thread; `?` where the program has no thread of this number.
    pub fn thread_name(&self, thread: u8) -> &'a [u8] {
        if thread < self.program.threads() {
            self.program.thread_name(thread)
        } else {
            b"?"
        }
    }

    /// The name of an object; `?` where the program has no object of this kind and number.
    pub fn object_name(&self, object: Object) -> &'a [u8] {
        match object {
            Object::Variable(x) if x < self.program.variables() as usize => {
                self.program.variable_name(x)
            }
            Object::Mutex(m) if m < self.program.mutexes() as usize => self.program.mutex_name(m),
            Object::Condition(c) if c < self.program.conditions() as usize => {
                self.program.condition_name(c)
            }
            Object::Semaphore(k) if k < self.program.semaphores() as usize => {
                self.program.semaphore_name(k)
            }
            _ => b"?",
        }
    }

    /// The name of a local of a thread; `?` where there is no such thread, or it has no such local.
    pub fn local_name(&self, thread: u8, local: usize) -> &'a [u8] {
        if thread < self.program.threads() && local < self.program.locals(thread) {
            self.map.local_name(thread, local)
        } else {
            b"?"
        }
    }

    /// The instruction of this number in a thread's code; `None` where there is no such thread or
    /// instruction.
    pub fn instruction(&self, thread: u8, instruction: usize) -> Option<Instruction> {
        if thread < self.program.threads() {
            self.program.code(thread).get(instruction).copied()
        } else {
            None
        }
    }

    /// The place, in the text, of the instruction of this number in a thread's code; `None` where
    /// there is no such thread or instruction.
    pub fn place(&self, thread: u8, instruction: usize) -> Option<Pos> {
        if thread < self.program.threads() && instruction < self.program.code(thread).len() {
            Some(self.map.place(thread, instruction))
        } else {
            None
        }
    }

    /// The line in the text, counted from 1, of the instruction of this number in a thread's code;
    /// 0 where there is no such thread or instruction.
    pub fn line(&self, thread: u8, instruction: usize) -> u32 {
        match self.place(thread, instruction) {
            Some(place) => place.line,
            None => 0,
        }
    }
}
