//! The lines of an input, one after another.

ghost use Rattle.std.specs.Prelude.{◌≡◌, ◌≤◌, [], false, IfOk};
ghost use Rattle.mi_outside.specs.Causes.{HasCause};
ghost use Rattle.mi_model.specs.Run.{input_limit};
ghost use Rattle.mi_run.specs.Lines.{text_of, TellsLine};
ghost use Rattle.mi_run.specs.Reading.{reading_of, IsDoneAtEnd, Takes};

use crate::buffer::Buffer;
use crate::line::LineBytes;
use mi_outside::{Failed, Source};
use std::alloc::{AllocError, Global};

/// The most bytes of an input that a run reads.
const INPUT_LIMIT: u32 = 1 << 30;

/// What comes next of the lines of an input.
#[derive(Clone, Copy, Debug, PartialEq, Eq, Drop)]
pub enum Next {
    /// A line.
    Line,
    /// There is no line any more.
    End,
    /// A line that doesn't end within the bytes that may be read of an input that is longer.
    TooLong,
}

/// A reader of the lines of an input, of which it takes at most 2^30 bytes. All its memory is taken when it is made.
/// Once it has seen the end of the input it reads no more of it.
#[derive(Drop)]
pub struct Lines {
    pub buffer: Buffer,
    pub line: LineBytes,
    pub room: u32,
    pub ended: bool,
}

impl Lines {
    /// A reader that has read nothing, or `AllocError` where there is no memory.
    pub fn new(alloc: Global) -> Result<Lines, AllocError>
        ensures buffer { IfOk result (λ lines. lines.buffer ≡ []) }
        ensures room { IfOk result (λ lines. lines.room ≡ input_limit) }
        ensures ended { IfOk result (λ lines. lines.ended ≡ false) }
    {
        Ok(Lines {
            buffer: Buffer::new(alloc)?,
            line: LineBytes::new(alloc)?,
            room: INPUT_LIMIT,
            ended: false,
        })
    }

    /// Reads the next line, of which at least the first 1,021 bytes are kept.
    ///
    /// Answers `Failed` only where the source's count of faults rose; then a part of the line may be lost.
    pub fn next<I: Source>(&mut self, input: &mut I) -> Result<Next, Failed>
        requires { IsDoneAtEnd (reading_of self.old (I.left input.old)) }
        ensures tells { IfOk result (λ next. TellsLine next (text_of self.old.buffer (I.left input.old)) (text_of self.new.buffer (I.left input.new)) self.old.room self.new.room self.new.line) }
        ensures takes { Takes result (reading_of self.old (I.left input.old)) (reading_of self.new (I.left input.new)) (I.left input.new) self.new.line }
        ensures done { IsDoneAtEnd (reading_of self.new (I.left input.new)) }
        ensures cause { HasCause (I.faults input.old) (I.faults input.new) result }
    {
        self.line.clear();
        if self.ended {
            return Ok(Next::End);
        }
        'bytes: while self.buffer.fill(input)? {
            if self.room == 0 {
                return Ok(Next::TooLong);
            }
            self.room -= 1;
            let byte = self.buffer.take();
            if byte == b'\n' {
                self.line.end();
                return Ok(Next::Line);
            }
            self.line.push(byte);
        }
        self.ended = true;
        self.line.end();
        if self.line.is_empty() {
            Ok(Next::End)
        } else {
            Ok(Next::Line)
        }
    }
}
