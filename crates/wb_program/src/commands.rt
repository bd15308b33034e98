ghost use Rattle.std.specs.Prelude.{◌≡◌, Some, IfOk, IsSome, map, true, false, codes};
ghost use Rattle.clap.specs.Words.{app_of, first_value, found_of, kind_of, matches_of, rows_of, rule_of, takes};
ghost use Rattle.wb_program.specs.Words as asked;
ghost use Rattle.wb_program.specs.Commands as commands;
ghost use Rattle.wb_program.specs.Tasks.{shown, shown_sources};

use crate::forms::number_in;
use crate::words::{Sources, Task};
use clap::error::ErrorKind;
use clap::{Arg, ArgAction, ArgMatches, Command, Error};
use std::alloc::{AllocError, Global};

/// The task of words that have the form of `check`.
pub fn check_task<'a>(alloc: Global, words: &'a [&'a str]) -> Result<Task<'a>, AllocError>
    requires { asked.is_check (map (λ word. word.now) words.now) ≡ true }
    ensures { IfOk result (λ task. shown task ≡ asked.check (asked.word (map (λ word. word.now) words.now) 1) (asked.word (map (λ word. word.now) words.now) 2)) }
{
    let matches = matches_of(check_command(alloc)?, words)?;
    Ok(Task::Check(
        text_of(&matches, "metamodel").as_bytes(),
        text_of(&matches, "viewpoint").as_bytes(),
    ))
}

/// The sources of words that have the form of `draw`.
pub fn draw_sources<'a>(alloc: Global, words: &'a [&'a str]) -> Result<Sources<'a>, AllocError>
    requires { asked.is_draw (map (λ word. word.now) words.now) ≡ true }
    ensures { IfOk result (λ sources. shown_sources sources ≡ asked.sources_in (map (λ word. word.now) words.now)) }
{
    let matches = matches_of(draw_command(alloc)?, words)?;
    Ok(sources_of(&matches))
}

/// The sources of words that have the form of `serve` without a number.
pub fn serve_sources<'a>(alloc: Global, words: &'a [&'a str]) -> Result<Sources<'a>, AllocError>
    requires { asked.is_serve (map (λ word. word.now) words.now) ≡ true }
    ensures { IfOk result (λ sources. shown_sources sources ≡ asked.sources_in (map (λ word. word.now) words.now)) }
{
    let matches = matches_of(serve_command(alloc)?, words)?;
    Ok(sources_of(&matches))
}

/// The task of words that have the form of `serve` with a number.
pub fn limited_serve_task<'a>(alloc: Global, words: &'a [&'a str]) -> Result<Task<'a>, AllocError>
    requires { asked.is_limited_serve (map (λ word. word.now) words.now) ≡ true }
    ensures { IfOk result (λ task. shown task ≡ asked.serve (asked.sources_in (map (λ word. word.now) words.now)) (asked.number_in (map (λ word. word.now) words.now) 5)) }
{
    let matches = matches_of(limited_serve_command(alloc)?, words)?;
    let connections = number_in(text_of(&matches, "connections"));
    Ok(Task::Serve(sources_of(&matches), connections))
}

/// The task of words that have the form of `big`.
pub fn big_task<'a>(alloc: Global, words: &'a [&'a str]) -> Result<Task<'a>, AllocError>
    requires { asked.is_big (map (λ word. word.now) words.now) ≡ true }
    ensures { IfOk result (λ task. shown task ≡ asked.big (asked.number_in (map (λ word. word.now) words.now) 1)) }
{
    let matches = matches_of(big_command(alloc)?, words)?;
    Ok(Task::Big(number_in(text_of(&matches, "number"))))
}

/// A word that has to stand there.
fn word<'a>(alloc: Global, id: &'a str) -> Arg<'a>
    ensures rule { rule_of result ≡ commands.word_rule id.entry.now }
    ensures local { result.global ≡ false }
{
    Arg::new(alloc, id).required(true).action(ArgAction::Set)
}

#[tactic(auto, unfolding(crate::specs::Commands::check_command))]
fn check_command<'a>(alloc: Global) -> Result<Command<'a>, AllocError>
    ensures { IfOk result (λ command. app_of command ≡ commands.check_command) }
{
    Command::new(alloc, "check")
        .arg(word(alloc, "metamodel"))?
        .arg(word(alloc, "viewpoint"))
}

/// The command of a first word and the files of a picture.
fn picture_command<'a>(alloc: Global, name: &'a str) -> Result<Command<'a>, AllocError>
    ensures { IfOk result (λ command. app_of command ≡ commands.picture_command name.entry.now) }
{
    Command::new(alloc, name)
        .arg(word(alloc, "metamodel"))?
        .arg(word(alloc, "viewpoint"))?
        .arg(word(alloc, "model"))
}

#[tactic(auto, unfolding(crate::specs::Commands::draw_command))]
fn draw_command<'a>(alloc: Global) -> Result<Command<'a>, AllocError>
    ensures { IfOk result (λ command. app_of command ≡ commands.draw_command) }
{
    picture_command(alloc, "draw")
}

#[tactic(auto, unfolding(crate::specs::Commands::serve_command))]
fn serve_command<'a>(alloc: Global) -> Result<Command<'a>, AllocError>
    ensures { IfOk result (λ command. app_of command ≡ commands.serve_command) }
{
    picture_command(alloc, "serve")
}

#[tactic(auto, unfolding(crate::specs::Commands::limited_serve_command))]
fn limited_serve_command<'a>(alloc: Global) -> Result<Command<'a>, AllocError>
    ensures { IfOk result (λ command. app_of command ≡ commands.limited_serve_command) }
{
    let connections = word(alloc, "connections").long("connections");
    picture_command(alloc, "serve")?.arg(connections)
}

#[tactic(auto, unfolding(crate::specs::Commands::big_command))]
fn big_command<'a>(alloc: Global) -> Result<Command<'a>, AllocError>
    ensures { IfOk result (λ command. app_of command ≡ commands.big_command) }
{
    Command::new(alloc, "big").arg(word(alloc, "number"))
}

/// What a command finds in words that it takes.
fn matches_of<'a>(command: Command<'a>, words: &'a [&'a str]) -> Result<ArgMatches<'a>, AllocError>
    requires { takes (app_of command) (map (λ word. word.now) words.now) ≡ true }
    ensures { IfOk result (λ matches. rows_of (found_of matches) ≡ matches_of (app_of command.entry) (map (λ word. word.now) words.now)) }
{
    match command.try_get_matches_from(words) {
        Ok(matches) => Ok(matches),
        Err(error) => Err(memory_error(error)),
    }
}

/// Words that a command takes are refused for want of memory alone.
fn memory_error(_error: Error) -> AllocError
    requires { kind_of _error ≡ ErrorKind.OutOfMemory }
{
    AllocError
}

fn sources_of<'a>(matches: &ArgMatches<'a>) -> Sources<'a>
    requires metamodel { IsSome (first_value (found_of matches.now) (codes "metamodel")) }
    requires viewpoint { IsSome (first_value (found_of matches.now) (codes "viewpoint")) }
    requires model { IsSome (first_value (found_of matches.now) (codes "model")) }
    ensures metamodel { Some result.metamodel.now ≡ first_value (found_of matches.now) (codes "metamodel") }
    ensures viewpoint { Some result.viewpoint.now ≡ first_value (found_of matches.now) (codes "viewpoint") }
    ensures model { Some result.model.now ≡ first_value (found_of matches.now) (codes "model") }
{
    Sources {
        metamodel: text_of(matches, "metamodel").as_bytes(),
        viewpoint: text_of(matches, "viewpoint").as_bytes(),
        model: text_of(matches, "model").as_bytes(),
    }
}

/// The text that was found for an argument.
fn text_of<'a>(matches: &ArgMatches<'a>, id: &str) -> &'a str
    requires { IsSome (first_value (found_of matches.now) id.now) }
    ensures { Some result.now ≡ first_value (found_of matches.now) id.now }
{
    matches.get_str(id).unwrap()
}
