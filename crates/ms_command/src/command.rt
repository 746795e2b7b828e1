ghost use Rattle.std.specs.Prelude.{◌≡◌, ◌≢◌, IfErr, IfOk, map, MatchResult, Some, None, Ok, if◌then◌else◌};
ghost use Rattle.std.specs.List.{list_all};
ghost use Rattle.std.specs.Option.{option_map};
ghost use Rattle.ms_words.specs.Inputs.{is_of};
ghost use Rattle.ms_words.specs.declared.kind.Kind.TheVariants.{I};
ghost use Rattle.ms_command.specs.Numerals.{number_values};
ghost use Rattle.ms_command.specs.Commands.{IsInRange, Refuses, alone, class_of, command_of, command_of_tokens, depth_of, entry_of, explore_of, once_of};

use crate::number::{number, numeral};
use crate::tokens::{cut, is_plain_line};
use crate::words::Words;
use ms_words::{Name, NoMemory};
use std::alloc::Global;
use thiserror::Error;

/// A command.
#[derive(Debug, Drop)]
pub enum Command {
    /// A line without a token: it does nothing and has no reply.
    Nothing,
    /// Runs the method of this name and descriptor of the class in the file, on these words.
    Once {
        file: Name,
        name: Name,
        desc: Name,
        words: Words,
    },
    /// Adds the class in the file of this name to the program.
    Class {
        file: Name,
    },
    /// Makes the method of this name and descriptor, of the class of this name, the entry.
    Entry {
        class: Name,
        name: Name,
        desc: Name,
    },
    /// Sets the depth at which paths are cut, from 0 to 256.
    Depth(u16),
    /// Settles at most so many strings, from 1 to 1,000,000.
    Explore(u32),
    /// Lists the paths.
    Report,
    /// Ends the session.
    Quit,
}

/// The greatest depth of a command.
const MOST_DEPTH: u64 = 256;

/// The least number of strings that a command settles.
const FEWEST_STRINGS: u64 = 1;

/// The greatest number of strings that a command settles.
const MOST_STRINGS: u64 = 1_000_000;

/// Why a line is no command.
#[derive(Clone, Copy, Debug, PartialEq, Eq, Drop, Error)]
pub enum CommandRefusal {
    /// The line has more than 4,096 bytes or one outside 0x20 to 0x7E.
    #[error("the line has more than 4,096 bytes or one outside 0x20 to 0x7E")]
    Line,
    /// No form of a command fits the line.
    #[error("no form of a command fits the line")]
    Command,
    /// A form fits the line, and a number is outside its range: a word has 32 bits, a depth is from 0 to
    /// 256, and a number of strings is from 1 to 1,000,000.
    #[error("a number is outside its range")]
    Range,
    /// Memory ran out.
    #[error("memory ran out")]
    NoMemory,
}

impl From<NoMemory> for CommandRefusal {
    ghost use Rattle.ms_command.specs.declared.command.CommandRefusal.TheVariants as refusals;

    ghost from_gives = { λ _ refusal. refusal ≡ refusals.NoMemory };

    fn from(_: NoMemory) -> CommandRefusal {
        CommandRefusal::NoMemory
    }
}

/// The command that a line is. The line stands without its line feed, and without the carriage
/// return before that. It is refused as `Line` exactly where it has more than 4,096 bytes or one
/// outside 0x20 to 0x7E; else as `Command` exactly where no form of a command fits; else as `Range`
/// exactly where a number is outside its range. `NoMemory` may come for every line but those
/// that are refused as `Line`.
pub fn read_command(alloc: Global, line: &[u8]) -> Result<Command, CommandRefusal>
    ensures command { MatchResult result (λ command. command_of line.now ≡ Ok command) (λ refusal. Refuses refusal (command_of line.now)) }
    ensures range { IfOk result IsInRange }
{
    if !is_plain_line(line) {
        return Err(CommandRefusal::Line);
    }
    let tokens = cut(alloc, line)?;
    command_from(alloc, tokens.as_slice())
}

fn command_from(alloc: Global, tokens: &[&[u8]]) -> Result<Command, CommandRefusal>
    ensures { MatchResult result (λ command. command_of_tokens (map (λ token. token.now) tokens.now) ≡ Ok command) (λ refusal. Refuses refusal (command_of_tokens (map (λ token. token.now) tokens.now))) }
{
    let [word, arguments @ ..] = tokens else {
        return Ok(Command::Nothing);
    };
    let word = *word;
    if word == b"once".as_slice() {
        once(alloc, arguments)
    } else if word == b"class".as_slice() {
        class(alloc, arguments)
    } else if word == b"entry".as_slice() {
        entry(alloc, arguments)
    } else if word == b"depth".as_slice() {
        depth(arguments)
    } else if word == b"explore".as_slice() {
        explore(arguments)
    } else if word == b"report".as_slice() {
        report(arguments)
    } else if word == b"quit".as_slice() {
        quit(arguments)
    } else {
        Err(CommandRefusal::Command)
    }
}

fn once(alloc: Global, arguments: &[&[u8]]) -> Result<Command, CommandRefusal>
    ensures { MatchResult result (λ command. once_of (map (λ token. token.now) arguments.now) ≡ Ok command) (λ refusal. Refuses refusal (once_of (map (λ token. token.now) arguments.now))) }
{
    let [file, name, desc, words @ ..] = arguments else {
        return Err(CommandRefusal::Command);
    };
    let Some(numbers) = numbers(alloc, words)? else {
        return Err(CommandRefusal::Command);
    };
    let Some(words) = words_of(alloc, numbers.as_slice())? else {
        return Err(CommandRefusal::Range);
    };
    Ok(Command::Once {
        file: Name::of(alloc, file)?,
        name: Name::of(alloc, name)?,
        desc: Name::of(alloc, desc)?,
        words,
    })
}

fn class(alloc: Global, arguments: &[&[u8]]) -> Result<Command, CommandRefusal>
    ensures { MatchResult result (λ command. class_of (map (λ token. token.now) arguments.now) ≡ Ok command) (λ refusal. Refuses refusal (class_of (map (λ token. token.now) arguments.now))) }
{
    let [file] = arguments else {
        return Err(CommandRefusal::Command);
    };
    Ok(Command::Class {
        file: Name::of(alloc, file)?,
    })
}

fn entry(alloc: Global, arguments: &[&[u8]]) -> Result<Command, CommandRefusal>
    ensures { MatchResult result (λ command. entry_of (map (λ token. token.now) arguments.now) ≡ Ok command) (λ refusal. Refuses refusal (entry_of (map (λ token. token.now) arguments.now))) }
{
    let [class, name, desc] = arguments else {
        return Err(CommandRefusal::Command);
    };
    Ok(Command::Entry {
        class: Name::of(alloc, class)?,
        name: Name::of(alloc, name)?,
        desc: Name::of(alloc, desc)?,
    })
}

fn depth(arguments: &[&[u8]]) -> Result<Command, CommandRefusal>
    ensures command { MatchResult result (λ command. depth_of (map (λ token. token.now) arguments.now) ≡ Ok command) (λ refusal. Refuses refusal (depth_of (map (λ token. token.now) arguments.now))) }
    ensures memory { IfErr result (λ refusal. refusal ≢ CommandRefusal.NoMemory) }
{
    let [depth] = arguments else {
        return Err(CommandRefusal::Command);
    };
    match numeral(depth) {
        None => Err(CommandRefusal::Command),
        Some(depth) if depth <= MOST_DEPTH => Ok(Command::Depth(depth as u16)),
        Some(_) => Err(CommandRefusal::Range),
    }
}

fn explore(arguments: &[&[u8]]) -> Result<Command, CommandRefusal>
    ensures command { MatchResult result (λ command. explore_of (map (λ token. token.now) arguments.now) ≡ Ok command) (λ refusal. Refuses refusal (explore_of (map (λ token. token.now) arguments.now))) }
    ensures memory { IfErr result (λ refusal. refusal ≢ CommandRefusal.NoMemory) }
{
    let [most] = arguments else {
        return Err(CommandRefusal::Command);
    };
    match numeral(most) {
        None => Err(CommandRefusal::Command),
        Some(most) if FEWEST_STRINGS <= most && most <= MOST_STRINGS => Ok(Command::Explore(
            most as u32,
        )),
        Some(_) => Err(CommandRefusal::Range),
    }
}

fn report(arguments: &[&[u8]]) -> Result<Command, CommandRefusal>
    ensures command { MatchResult result (λ command. alone Command.Report (map (λ token. token.now) arguments.now) ≡ Ok command) (λ refusal. Refuses refusal (alone Command.Report (map (λ token. token.now) arguments.now))) }
    ensures memory { IfErr result (λ refusal. refusal ≢ CommandRefusal.NoMemory) }
{
    if !arguments.is_empty() {
        return Err(CommandRefusal::Command);
    }
    Ok(Command::Report)
}

fn quit(arguments: &[&[u8]]) -> Result<Command, CommandRefusal>
    ensures command { MatchResult result (λ command. alone Command.Quit (map (λ token. token.now) arguments.now) ≡ Ok command) (λ refusal. Refuses refusal (alone Command.Quit (map (λ token. token.now) arguments.now))) }
    ensures memory { IfErr result (λ refusal. refusal ≢ CommandRefusal.NoMemory) }
{
    if !arguments.is_empty() {
        return Err(CommandRefusal::Command);
    }
    Ok(Command::Quit)
}

/// The numbers that tokens stand for, or `None` where one stands for none.
fn numbers(alloc: Global, tokens: &[&[u8]]) -> Result<Option<Vec<i64>>, NoMemory>
    ensures { IfOk result (λ found. option_map (λ numbers. numbers.items) found ≡ number_values (map (λ token. token.now) tokens.now)) }
{
    let mut numbers = Vec::new(alloc);
    for token in tokens {
        let Some(value) = number(token) else {
            return Ok(None);
        };
        numbers.push(value)?;
    }
    Ok(Some(numbers))
}

/// The words that numbers are, or `None` where one is no word of 32 bits.
fn words_of(alloc: Global, numbers: &[i64]) -> Result<Option<Words>, NoMemory>
    ensures { IfOk result (λ found. found ≡ (if list_all (is_of I) numbers.now then Some numbers.now else None)) }
{
    let mut words = Words::new(alloc);
    for number in numbers {
        let Ok(word) = i32::try_from(*number) else {
            return Ok(None);
        };
        words.push(word)?;
    }
    Ok(Some(words))
}
