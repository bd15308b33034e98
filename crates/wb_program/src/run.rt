ghost use Rattle.std.specs.Prelude.{◌≡◌, false, Some, IfSome, map};
ghost use Rattle.wb_outer.specs.Faults.{Rose};
ghost use Rattle.wb_program.specs.declared.status.Status.TheVariants.{ShelfFault, SinkFault, KeeperFault, DoorFault};
ghost use Rattle.wb_program.specs.Words as asked;
ghost use Rattle.wb_program.specs.Tasks.{shown};
ghost use Rattle.wb_program.specs.Opening.{course_of, course_for, task_course, answer_to};
ghost use Rattle.wb_program.specs.Asked.{AsksFront};
ghost use Rattle.wb_program.specs.Steps.{Went};
ghost use Rattle.wb_program.specs.Runs.{Runs, IsOfFiles, IsPrinted, IsDecision, Settles};

use crate::answer::{Answer, Ending, ended_by, not_built, usage};
use crate::checking::check;
use crate::drawing::draw;
use crate::status::Status;
use crate::words::{Task, task_of, texts_of};
use std::alloc::{AllocError, Global};
use wb_outer::{Bytes, Door, Keeper, Shelf, Sink, Steps, Wrote};

/// Runs the program: does what the words ask for, over the objects of the outside, and says how it ended.
/// All that is printed goes to the sink in one write.
pub fn workbench<H: Shelf, D: Door, K: Keeper, O: Sink, L>(
    alloc: Global,
    words: &[Bytes],
    shelf: &mut H,
    door: &mut D,
    keeper: &mut K,
    out: &mut O,
    steps: &mut Steps<L>,
) -> Status
    // The answer is one function of the words and of what the shelf gave. It is handed to the sink in one write, and the
    // status is its own, unless the sink failed. Where memory was wanting nothing is handed to the sink.
    ensures runs { Runs (course_of words.now) result (H.told shelf.old) (H.told shelf.new) (O.told out.old) (O.told out.new) }
    // Where the files are told and the shelf's count did not rise, the answer is that of the files.
    ensures files { IfSome (H.told shelf.old).files (IsOfFiles (answer_to words.now) result (H.told shelf.old) (H.told shelf.new) (O.told out.old) (O.told out.new)) }
    // The names asked of the shelf are a front of the words' files, in order.
    ensures asked { AsksFront (H.told shelf.old).given (H.told shelf.new).given (asked.files_of (asked.task_of words.now)) }
    // The status of a fault comes only where the count of that object rose.
    ensures shelf_fault { result ≡ ShelfFault → Rose (H.told shelf.old).faults (H.told shelf.new).faults }
    ensures sink_fault { result ≡ SinkFault → Rose (O.told out.old).faults (O.told out.new).faults }
    ensures keeper_fault { result ≡ KeeperFault → Rose (K.told keeper.old).faults (K.told keeper.new).faults }
    ensures door_fault { result ≡ DoorFault → Rose (D.told door.old).faults (D.told door.new).faults }
    // Words that ask for no connections leave door and keeper alone.
    ensures door_stays { asked.takes_connections (asked.task_of words.now) ≡ false → door.new ≡ door.old }
    ensures keeper_stays { asked.takes_connections (asked.task_of words.now) ≡ false → keeper.new ≡ keeper.old }
{
    run_words(alloc, words, shelf, out, steps)
}

/// Does what the words ask for, and prints the answer.
fn run_words<H: Shelf, O: Sink, L>(
    alloc: Global,
    words: &[Bytes],
    shelf: &mut H,
    out: &mut O,
    steps: &mut Steps<L>,
) -> Status
    ensures { Runs (course_of words.now) result (H.told shelf.old) (H.told shelf.new) (O.told out.old) (O.told out.new) }
{
    match decide(alloc, words, shelf, steps) {
        Ok(answer) => print(out, &answer),
        Err(_) => Status::NoMemory,
    }
}

/// What a run ends with, before it is printed.
#[tactic(auto, unfolding(crate::specs::Words::task_of))]
fn decide<H: Shelf, L>(
    alloc: Global,
    words: &[Bytes],
    shelf: &mut H,
    steps: &mut Steps<L>,
) -> Result<Answer, AllocError>
    ensures { IsDecision result (course_of words.now) (H.told shelf.old) (H.told shelf.new) }
{
    match texts_of(alloc, words)? {
        Some(texts) => decide_on(alloc, texts.as_slice(), shelf, steps),
        None => usage(alloc),
    }
}

/// The same for words that are UTF-8.
fn decide_on<H: Shelf, L>(
    alloc: Global,
    words: &[&str],
    shelf: &mut H,
    steps: &mut Steps<L>,
) -> Result<Answer, AllocError>
    ensures { IsDecision result (course_for (asked.task_in (map (λ word. word.now) words.now))) (H.told shelf.old) (H.told shelf.new) }
{
    match task_of(alloc, words)? {
        Some(task) => conclude(perform(alloc, shelf, task, steps)),
        None => usage(alloc),
    }
}

/// Does a task, up to what is printed.
fn perform<H: Shelf, L>(
    alloc: Global,
    shelf: &mut H,
    task: Task<'_>,
    steps: &mut Steps<L>,
) -> Result<Answer, Ending>
    ensures { Went result (task_course (shown task.entry)) (H.told shelf.old) (H.told shelf.new) }
{
    match task {
        Task::Check(metamodel, viewpoint) => check(alloc, shelf, metamodel, viewpoint),
        Task::Draw(sources) => draw(alloc, shelf, sources, steps),
        Task::Serve(..) => Err(ended_by(not_built(alloc))),
        Task::Big(_) => Err(ended_by(not_built(alloc))),
    }
}

fn conclude(step: Result<Answer, Ending>) -> Result<Answer, AllocError>
    ensures { Settles step result }
{
    match step {
        Ok(answer) => Ok(answer),
        Err(Ending::Answer(answer)) => Ok(answer),
        Err(Ending::NoMemory) => Err(AllocError),
    }
}

/// Prints an answer in one write.
fn print<O: Sink>(out: &mut O, answer: &Answer) -> Status
    ensures { IsPrinted answer.now result (O.told out.old) (O.told out.new) }
{
    match out.write(answer.text.as_slice()) {
        Wrote::Done => answer.status,
        Wrote::Failed => Status::SinkFault,
    }
}
