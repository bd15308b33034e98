ghost use Rattle.std.specs.Prelude.{◌≡◌, option_map, map, IfOk};
ghost use Rattle.wb_program.specs.Words as asked;
ghost use Rattle.wb_program.specs.Tasks.{shown};

use crate::commands::{big_task, check_task, draw_sources, limited_serve_task, serve_sources};
use crate::forms::{MOST_CONNECTIONS, is_big, is_check, is_draw, is_limited_serve, is_serve};
use std::alloc::{AllocError, Global};
use wb_outer::Bytes;

/// The files of a picture, by their names.
#[derive(Clone, Copy)]
pub struct Sources<'a> {
    pub metamodel: &'a [u8],
    pub viewpoint: &'a [u8],
    pub model: &'a [u8],
}

/// What the words ask for.
#[derive(Clone, Copy)]
pub enum Task<'a> {
    /// The problems of a viewpoint over a metamodel: the names of both.
    Check(&'a [u8], &'a [u8]),
    /// The picture of a model under a viewpoint.
    Draw(Sources<'a>),
    /// A server of that picture, for so many connections.
    Serve(Sources<'a>, u32),
    /// A large session, over so many books.
    Big(u32),
}

/// The words as texts, if they are UTF-8.
pub fn texts_of<'a>(alloc: Global, words: &'a [Bytes]) -> Result<Option<Vec<&'a str>>, AllocError>
    ensures { IfOk result (λ texts. option_map (λ found. map (λ text. text.now) found.items) texts ≡ asked.texts_of words.now) }
{
    let mut texts = Vec::new(alloc);
    for word in words {
        match text_in(word.as_slice()) {
            Some(text) => texts.push(text)?,
            None => return Ok(None),
        }
    }
    Ok(Some(texts))
}

fn text_in(word: &[u8]) -> Option<&str>
    ensures { option_map (λ text. text.now) result ≡ asked.text_in word.now }
{
    match std::str::from_utf8(word) {
        Ok(text) => Some(text),
        Err(_) => None,
    }
}

/// What the words ask for, if they are of a form. Words of a form are taken apart by `clap`.
#[tactic(auto, unfolding(crate::specs::Words::task_in))]
pub fn task_of<'a>(alloc: Global, words: &'a [&'a str]) -> Result<Option<Task<'a>>, AllocError>
    ensures { IfOk result (λ task. option_map shown task ≡ asked.task_in (map (λ word. word.now) words.now)) }
{
    if is_check(words) {
        Ok(Some(check_task(alloc, words)?))
    } else if is_draw(words) {
        Ok(Some(Task::Draw(draw_sources(alloc, words)?)))
    } else if is_serve(words) {
        Ok(Some(Task::Serve(serve_sources(alloc, words)?, MOST_CONNECTIONS)))
    } else if is_limited_serve(words) {
        Ok(Some(limited_serve_task(alloc, words)?))
    } else if is_big(words) {
        Ok(Some(big_task(alloc, words)?))
    } else {
        Ok(None)
    }
}
