//! The options of the command line.

ghost use Rattle.std.specs.Prelude.{◌≡◌, ℕ, cond, false, List, ◌∷◌, None, length, map, option_map, string_bytes, IfSome, IfOk};
ghost use Rattle.mi_commands.specs.declared.options.OptionName.TheVariants.{Entry, Size, Turns, Data, Code};
ghost use Rattle.mi_commands.specs.Options.{is_value, option_said, said_by, positional_in, with_option, with_value, if_given, given_in, read_on, words_of, none_given, said_in_bytes, given_in_bytes, AreWithin, only_of};
ghost use Rattle.std.specs.Option.{option_copied};

use crate::numbers::{number, size, turns};
use std::alloc::{AllocError, Global};

/// The name of an option.
#[derive(Clone, Copy, Debug, PartialEq, Eq, Drop)]
pub enum OptionName {
    Entry,
    Size,
    Turns,
    Data,
    Code,
}

/// What a word says that is not an option's value.
#[derive(Clone, Copy)]
pub enum Said<'a> {
    /// It is a positional word.
    Positional,
    /// It is an option, whose value is the next word.
    Awaits(OptionName),
    /// It is an option with its value.
    Gives(OptionName, &'a [u8]),
    /// It is none of these.
    Nothing,
}

/// The options that were given.
#[derive(Clone, Copy)]
pub struct Given<'a> {
    pub entry: Option<&'a [u8]>,
    pub size: Option<u32>,
    pub turns: Option<u64>,
    pub data_base: Option<u64>,
    pub code_base: Option<u64>,
}

/// Whether a word may be a positional word or a value: it is not empty, and its first byte is not `-`.
fn is_value(word: &[u8]) -> bool
    ensures { result ≡ is_value word.now }
{
    match word {
        [] => false,
        [first, ..] => *first != b'-',
    }
}

/// What an option says with this behind its name: nothing, or `=` and its value.
fn option_said(name: OptionName, rest: &[u8]) -> Said<'_>
    ensures { said_in_bytes result ≡ option_said name rest.now }
{
    match rest.split_first() {
        None => Said::Awaits(name),
        Some((first, value)) => {
            if *first == b'=' {
                Said::Gives(name, value)
            } else {
                Said::Nothing
            }
        }
    }
}

/// What a word says.
fn said_by(word: &[u8]) -> Said<'_>
    ensures { said_in_bytes result ≡ said_by word.now }
{
    if is_value(word) {
        return Said::Positional;
    }
    if let Some(rest) = word.strip_prefix(b"--entry".as_slice()) {
        return option_said(OptionName::Entry, rest);
    }
    if let Some(rest) = word.strip_prefix(b"--size".as_slice()) {
        return option_said(OptionName::Size, rest);
    }
    if let Some(rest) = word.strip_prefix(b"--turns".as_slice()) {
        return option_said(OptionName::Turns, rest);
    }
    if let Some(rest) = word.strip_prefix(b"--data".as_slice()) {
        return option_said(OptionName::Data, rest);
    }
    if let Some(rest) = word.strip_prefix(b"--code".as_slice()) {
        return option_said(OptionName::Code, rest);
    }
    Said::Nothing
}

/// The options with one more, which was not given yet and whose value is right.
fn with_value<'a>(given: Given<'a>, name: OptionName, value: &'a [u8]) -> Option<Given<'a>>
    requires { AreWithin given }
    ensures value { option_map given_in_bytes result ≡ with_value name value.now (given_in_bytes given.entry) }
    ensures within { IfSome result AreWithin }
{
    if !is_value(value) {
        return None;
    }
    match name {
        OptionName::Entry => with_entry(given, value),
        OptionName::Size => with_size(given, value),
        OptionName::Turns => with_turns(given, value),
        OptionName::Data => with_data_base(given, value),
        OptionName::Code => with_code_base(given, value),
    }
}

/// The options with an entry name, which was not given yet.
fn with_entry<'a>(given: Given<'a>, value: &'a [u8]) -> Option<Given<'a>>
    requires { AreWithin given }
    ensures value { option_map given_in_bytes result ≡ with_option Entry value.now (given_in_bytes given.entry) }
    ensures within { IfSome result AreWithin }
{
    if given.entry.is_some() {
        return None;
    }
    Some(Given {
        entry: Some(value),
        ..given
    })
}

/// The options with a size, which was not given yet and is right.
fn with_size<'a>(given: Given<'a>, value: &[u8]) -> Option<Given<'a>>
    requires { AreWithin given }
    ensures value { option_map given_in_bytes result ≡ with_option Size value.now (given_in_bytes given.entry) }
    ensures within { IfSome result AreWithin }
{
    if given.size.is_some() {
        return None;
    }
    let Some(size) = size(value) else {
        return None;
    };
    Some(Given {
        size: Some(size),
        ..given
    })
}

/// The options with a budget of instructions, which was not given yet and is right.
fn with_turns<'a>(given: Given<'a>, value: &[u8]) -> Option<Given<'a>>
    requires { AreWithin given }
    ensures value { option_map given_in_bytes result ≡ with_option Turns value.now (given_in_bytes given.entry) }
    ensures within { IfSome result AreWithin }
{
    if given.turns.is_some() {
        return None;
    }
    let Some(turns) = turns(value) else {
        return None;
    };
    Some(Given {
        turns: Some(turns),
        ..given
    })
}

/// The options with a data base, which was not given yet and is a number.
fn with_data_base<'a>(given: Given<'a>, value: &[u8]) -> Option<Given<'a>>
    requires { AreWithin given }
    ensures value { option_map given_in_bytes result ≡ with_option Data value.now (given_in_bytes given.entry) }
    ensures within { IfSome result AreWithin }
{
    if given.data_base.is_some() {
        return None;
    }
    let Some(data_base) = number(value) else {
        return None;
    };
    Some(Given {
        data_base: Some(data_base),
        ..given
    })
}

/// The options with a code base, which was not given yet and is a number.
fn with_code_base<'a>(given: Given<'a>, value: &[u8]) -> Option<Given<'a>>
    requires { AreWithin given }
    ensures value { option_map given_in_bytes result ≡ with_option Code value.now (given_in_bytes given.entry) }
    ensures within { IfSome result AreWithin }
{
    if given.code_base.is_some() {
        return None;
    }
    let Some(code_base) = number(value) else {
        return None;
    };
    Some(Given {
        code_base: Some(code_base),
        ..given
    })
}

/// How far the options are read: those that were given, and the one whose value is the next word.
#[derive(Clone, Copy)]
pub struct Reading<'a> {
    pub given: Given<'a>,
    pub awaited: Option<OptionName>,
}

/// Reads a word more, unless it is wrong.
fn read_word<'a>(reading: Reading<'a>, word: &'a [u8]) -> Option<Reading<'a>>
    requires { AreWithin reading.given }
    ensures read { (words : List (List ℕ)) → given_in reading.entry.awaited (word.now ∷ words) (given_in_bytes reading.entry.given) ≡ read_on result words }
    ensures within { IfSome result (λ now. AreWithin now.given) }
{
    if let Some(name) = reading.awaited {
        return with_option_read(reading.given, name, word);
    }
    match said_by(word) {
        Said::Positional => Some(reading),
        Said::Awaits(name) => Some(Reading {
            given: reading.given,
            awaited: Some(name),
        }),
        Said::Gives(name, value) => with_option_read(reading.given, name, value),
        Said::Nothing => None,
    }
}

/// The options with one more, whose value was read.
fn with_option_read<'a>(given: Given<'a>, name: OptionName, value: &'a [u8]) -> Option<Reading<'a>>
    requires { AreWithin given }
    ensures read { (words : List (List ℕ)) → if_given (with_value name value.now (given_in_bytes given.entry)) (λ now. given_in None words now) ≡ read_on result words }
    ensures within { IfSome result (λ now. AreWithin now.given) }
{
    let Some(given) = with_value(given, name, value) else {
        return None;
    };
    Some(Reading {
        given,
        awaited: None,
    })
}

/// The options that the words give, or `None` where a word is wrong.
pub fn given_in(words: &[String]) -> Option<Given<'_>>
    ensures value { option_map given_in_bytes result ≡ given_in None (map string_bytes words.now) none_given }
    ensures within { IfSome result AreWithin }
{
    let mut reading = Reading {
        given: Given {
            entry: None,
            size: None,
            turns: None,
            data_base: None,
            code_base: None,
        },
        awaited: None,
    };
    let mut left = words;
    'words: while let Some((word, rest)) = left.split_first() {
        let Some(next) = read_word(reading, word.as_bytes()) else {
            return None;
        };
        reading = next;
        left = rest;
    }
    if reading.awaited.is_some() {
        return None;
    }
    Some(reading.given)
}

/// Whether a word is a positional word, and whether the next word is an option's value.
fn judge(value_next: bool, word: &[u8]) -> (bool, bool)
    ensures { (words : List (List ℕ)) → positional_in value_next (word.now ∷ words) ≡ cond result.0 (word.now ∷ positional_in result.1 words) (positional_in result.1 words) }
{
    if value_next {
        return (false, false);
    }
    match said_by(word) {
        Said::Positional => (true, false),
        Said::Awaits(_) => (false, true),
        Said::Gives(_, _) | Said::Nothing => (false, false),
    }
}

/// How many positional words there are.
pub fn count_positional(words: &[String]) -> usize
    ensures { result ≡ length (positional_in false (map string_bytes words.now)) }
{
    let mut count = 0;
    let mut value_next = false;
    let mut left = words;
    'words: while let Some((word, rest)) = left.split_first() {
        left = rest;
        let (positional, next) = judge(value_next, word.as_bytes());
        value_next = next;
        if positional {
            count += 1;
        }
    }
    count
}

/// The positional words, in order.
/// Answers `AllocError` where memory is refused.
pub fn positional(alloc: Global, words: &[String]) -> Result<Vec<&str>, AllocError>
    ensures { IfOk result (λ found. words_of found.items ≡ positional_in false (map string_bytes words.now)) }
{
    let mut found = Vec::new(alloc);
    let mut value_next = false;
    let mut left = words;
    'words: while let Some((word, rest)) = left.split_first() {
        left = rest;
        let (positional, next) = judge(value_next, word.as_bytes());
        value_next = next;
        if positional {
            found.push(word.as_str())?;
        }
    }
    Ok(found)
}

/// The positional word, where it is the only one.
pub fn only_positional(words: &[String]) -> Option<&str>
    ensures { option_copied result ≡ only_of (positional_in false (map string_bytes words.now)) }
{
    let mut found = None;
    let mut value_next = false;
    let mut left = words;
    'words: while let Some((word, rest)) = left.split_first() {
        left = rest;
        let (positional, next) = judge(value_next, word.as_bytes());
        value_next = next;
        if positional {
            if found.is_some() {
                return None;
            }
            found = Some(word.as_str());
        }
    }
    found
}
