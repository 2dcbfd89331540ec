//! The top call: from the words of the command line to the files.

ghost use Rattle.std.specs.Prelude.{◌≡◌, map, string_bytes};
ghost use Rattle.mi_commands.specs.Answered.{IsAnswered};
ghost use Rattle.mi_commands.specs.Command.{command_of};
ghost use Rattle.mi_commands.specs.Contract.{UnlessRun};
ghost use Rattle.mi_commands.specs.Outside.{outside_of};

use crate::command_line::{Command, command_of};
use crate::commands::build::build;
use crate::commands::run::run;
use crate::outcome::Outcome;
use crate::refusing::refuse_words;
use mi_outside::{Files, Sink, Source};
use std::alloc::Global;

/// Does what the words of the command line say, and answers how it ended. The words are those behind the program's
/// name.
///
/// `build OUT SRC..`, with its options anywhere behind `build`, builds the image of the sources and stores it in the file
/// OUT. All sources are read before the build begins. They are built once, over numbers that know which base addresses they
/// stand on, at no pair of bases. Where the answer is `Built`, the fresh plain build of the sources is done at every pair at
/// which an image may stand, with what is in use and the turns that are reported, and loading the file there gives the region
/// of that build, byte for byte. `Thrown`, `Spent` and `NoEntry` say that the fresh build ends so at every pair, `Step` that an
/// operation has no answer that is right at every pair, and `Cell` that the fresh build is done at every pair, but that no
/// cell of an image gives what stands in that cell; where it is a form, no image gives the regions of these builds. The output
/// gains what the sources emit at every pair (after `Step` the first of that), with a line feed behind it where its last line
/// has none, and the line that reports the outcome. OUT is written by way of the file `OUT.part`, so that an old file stays
/// until the new one is whole, and any other answer leaves all files but that one as they were. `OUT.part` is then gone or as
/// it was, unless the count of faults of the files rose. Nothing is read from the input.
///
/// `run IMG`, with its options anywhere behind `run`, runs the image of the file IMG on the lines of the input. A base that
/// isn't given is that of a fixed image's own pair, or of the usual pair for an image that may stand at any. The output gains
/// what the run emits and the line that reports the outcome, with a line feed before it where the last byte that was emitted
/// is none; where the answer is `Done` it gains what the run emits alone. No file changes.
///
/// Where the answer is `Built` or `Done` all of that was written; where it is another, maybe only a front of it, and a front
/// of the report.
///
/// `Usage` comes exactly for words that are no command. `ReadFault` comes only where the count of faults of the files, or in
/// a run that of the input, rose, and `WriteFault` only where that of the files or of the output rose; `NoMemory` may come
/// anywhere, also where there is none for a report. Any other answer of a build is what the sources come to, in this order:
/// `TooManySources` where there are more than 64; for each source in turn `NoFile` where there is no such file,
/// `SourceTooLong` where it has more than 4194304 bytes; `Thrown`, `Spent`, `Step` or `NoEntry` where the build ends so; `Cell`
/// with the first cell in use that no cell of an image gives at every pair; and `Built`. Any other answer of a run is what the
/// image and the input come to, in this order:
/// `NoFile`; `NotImage` or `TooLarge` with the first part of the file that isn't allowed; `Truncated` where the file ends
/// early; `PairNotAllowed`; `MadeFor` for a fixed image of another pair; and, as the run ends, `Done`, `EntryThrown`, `Spent`
/// or `InputTooLong`.
pub fn gforthmi<F: Files, I: Source, O: Sink>(
    alloc: Global,
    words: &[String],
    files: &mut F,
    input: &mut I,
    output: &mut O,
) -> Outcome
    ensures answered { IsAnswered (command_of (map string_bytes words.now)) result
        (outside_of (F.held files.old) (F.faults files.old) (I.left input.old) (I.faults input.old) (O.written output.old) (O.faults output.old))
        (outside_of (F.held files.new) (F.faults files.new) (I.left input.new) (I.faults input.new) (O.written output.new) (O.faults output.new)) }
    ensures unread { UnlessRun (command_of (map string_bytes words.now)) (input.new ≡ input.old) }
{
    match command_of(words) {
        None => refuse_words(output),
        Some(Command::Build { words, settings }) => build(alloc, words, &settings, files, output),
        Some(Command::Run { image, settings }) => run(
            alloc, image, &settings, files, input, output,
        ),
    }
}
