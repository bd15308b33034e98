ghost use Rattle.std.specs.Process.{exit_status};
ghost use Rattle.wb_console.specs.Ending.{Ends, Prints};

use std::alloc::AllocError;
use std::process::ExitCode;
use wb_base::Text;
use wb_outer::{Sink, Wrote};

/// Prints what a program answers. It ends with 0, with 3 where there is no answer, 6 where it cannot be printed, and 11 where
/// memory ran out.
pub fn finish<S: Sink>(sink: &mut S, answer: Result<Option<Text>, AllocError>) -> ExitCode
    ensures { Ends (S.told sink.old) (S.told sink.new) answer (exit_status result) }
{
    match answer {
        Ok(Some(text)) => print(sink, text.as_slice()),
        Ok(None) => ExitCode::from(3),
        Err(_) => ExitCode::from(11),
    }
}

fn print<S: Sink>(sink: &mut S, text: &[u8]) -> ExitCode
    ensures { Prints (S.told sink.old) (S.told sink.new) text.now (exit_status result) }
{
    match sink.write(text) {
        Wrote::Done => ExitCode::from(0),
        Wrote::Failed => ExitCode::from(6),
    }
}
