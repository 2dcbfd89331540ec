//! The words of the command line.

ghost use Rattle.std.specs.Prelude.{◌≡◌, ◌≤◌, ◌^◌, None, map, string_bytes, IfSome};
ghost use Rattle.mi_model.specs.Image.{IsRegionSize};
ghost use Rattle.mi_commands.specs.Command.{command_of, command_in_bytes, build_given, run_given, settings_of, run_settings_of, IsRight};
ghost use Rattle.mi_commands.specs.Settings.{settings_in_bytes};
ghost use Rattle.mi_commands.specs.Options.{given_in, given_in_bytes, none_given, AreWithin};

use crate::options::{Given, count_positional, given_in, only_positional};
use mi_build::Settings;

/// What the program is to do.
#[derive(Clone, Copy)]
pub enum Command<'a> {
    /// Build an image of some sources and store it in a file.
    Build {
        /// The words behind `build`: the positional ones are the name of the image and those of the sources.
        words: &'a [String],
        settings: Settings<'a>,
    },
    /// Run the image of a file.
    Run {
        /// The name of the file.
        image: &'a str,
        settings: RunSettings,
    },
}

/// Where an image is to run, and how long.
#[derive(Clone, Copy)]
pub struct RunSettings {
    /// The data base, where one is asked for.
    pub data_base: Option<u64>,
    /// The code base, where one is asked for.
    pub code_base: Option<u64>,
    /// How many instructions it may take.
    pub turns: u64,
}

/// The command that the words give, or `None` where they give none.
///
/// The commands are `build OUT SRC..`, with one source or more, and `run IMG`. Options stand anywhere behind the first word,
/// each at most once: for `build` they are `--entry NAME`, `--size N` and `--turns N`, for `run` `--data N`, `--code N` and
/// `--turns N`, each also with its value behind `=`. N is decimal digits, or `0x` and hexadecimal digits, below 2^64; a size
/// is a multiple of 4,096 from 65,536 to 8,388,608, and 1,048,576 where it isn't given; turns are from 1 to 2^40, and
/// 20,000,000 where they aren't given. No word and no value is empty or begins with `-`, but an option's own word.
pub fn command_of(words: &[String]) -> Option<Command<'_>>
    ensures read { command_in_bytes result ≡ command_of (map string_bytes words.now) }
    ensures right { IfSome result IsRight }
{
    let Some((name, words)) = words.split_first() else {
        return None;
    };
    if name.as_str() == "build" {
        return build_command(words);
    }
    if name.as_str() == "run" {
        return run_command(words);
    }
    None
}

/// The build that the words behind `build` give.
#[tactic(auto, using(crate::proofs::WordLemmas::too_few))]
fn build_command(words: &[String]) -> Option<Command<'_>>
    ensures read { command_in_bytes result ≡ build_given (map string_bytes words.now) (given_in None (map string_bytes words.now) none_given) }
    ensures right { IfSome result IsRight }
{
    let Some(given) = given_in(words) else {
        return None;
    };
    if given.data_base.is_some() {
        return None;
    }
    if given.code_base.is_some() {
        return None;
    }
    if count_positional(words) < 2 {
        return None;
    }
    let settings = settings_of(given);
    Some(Command::Build { words, settings })
}

/// The run that the words behind `run` give.
fn run_command(words: &[String]) -> Option<Command<'_>>
    ensures read { command_in_bytes result ≡ run_given (map string_bytes words.now) (given_in None (map string_bytes words.now) none_given) }
    ensures right { IfSome result IsRight }
{
    let Some(given) = given_in(words) else {
        return None;
    };
    if given.entry.is_some() {
        return None;
    }
    if given.size.is_some() {
        return None;
    }
    let Some(image) = only_positional(words) else {
        return None;
    };
    let settings = run_settings_of(given);
    Some(Command::Run { image, settings })
}

/// The settings of a run that the options give.
fn run_settings_of(given: Given<'_>) -> RunSettings
    ensures { result ≡ run_settings_of (given_in_bytes given.entry) }
{
    RunSettings {
        data_base: given.data_base,
        code_base: given.code_base,
        turns: given.turns.unwrap_or(20_000_000),
    }
}

/// The settings that the options give.
fn settings_of(given: Given<'_>) -> Settings<'_>
    requires { AreWithin given }
    ensures value { settings_in_bytes result ≡ settings_of (given_in_bytes given.entry) }
    ensures size { IsRegionSize result.size }
    ensures turns { result.turns ≤ 2 ^ 40 }
{
    Settings {
        entry: given.entry,
        size: given.size.unwrap_or(1_048_576),
        turns: given.turns.unwrap_or(20_000_000),
    }
}
