//! The program `bikeshare`: it makes, checks or serves the database of a bike share, as its words say.
#![tactic(auto)]

ghost use Rattle.bike_command_line.specs.Program.{IsWithin, IsWithinOnFile};

use bike_app::{CountingReader, Fault, Progress, exit_code, run_on_file, run_words_in_memory};
use bike_command_line::{FileTask, Mistake, Task, WordsFault, read_words};
use bike_http_sockets::clock_moment;
use bike_server::{listen, listen_on_file};
use sqlite::{Connection, Unknown};
use std::alloc::{AllocError, Global};
use std::env;
use std::io::{BufWriter, ErrorKind, IsTerminal, Write};
use std::process::ExitCode;

/// The status of words that aren't the program's.
const WRONG_WORDS: u8 = 2;

/// How many bytes of a feed, a table or the history are written at once.
const PIECE: usize = 65_536;

/// Tells what is wrong with the words, and how the program is used; that this can't be written changes nothing.
fn tell_mistake(rt: &HostRuntime, mistake: &Mistake<'_>) -> ExitCode {
    let _ = eprint!(rt; "{mistake}");
    ExitCode::from(WRONG_WORDS)
}

/// The texts as they are lent.
fn lent(alloc: Global, texts: &[String]) -> Result<Vec<&str>, AllocError> {
    let mut lent = Vec::new(alloc);
    for text in texts {
        lent.push(text.as_str())?;
    }
    Ok(lent)
}

/// Whether a person looks on while the task is done: it is long work, and standard error is a terminal.
fn is_looked_on(rt: &HostRuntime, task: &FileTask<'_>) -> bool {
    match task {
        FileTask::Check | FileTask::Raise | FileTask::Import { .. } => rt.stderr().is_terminal(),
        FileTask::Init
        | FileTask::Lines
        | FileTask::Feed { .. }
        | FileTask::Day { .. }
        | FileTask::History { .. } => false,
    }
}

/// Does a task over the database, with this output.
fn run_on<W: Write>(
    rt: &HostRuntime,
    task: &FileTask<'_>,
    file: &str,
    out: &mut W,
) -> Result<u64, Fault>
    requires { IsWithinOnFile task.now }
{
    let clock = clock_moment(rt);
    if file == ":memory:" {
        return run_words_in_memory(rt.alloc(), task, clock, &mut rt.stdin(), out);
    }
    let is_shown = is_looked_on(rt, task);
    let mut input = CountingReader::new(rt.stdin(), Progress::new(rt.stderr(), is_shown));
    let mut progress = Progress::new(rt.stderr(), is_shown);
    progress.opening();
    let (_, end) = run_on_file(
        rt,
        task,
        clock,
        file,
        Unknown,
        &mut input,
        out,
        &mut progress,
    );
    progress.end();
    end
}

/// Writes what the buffer holds, and tells how the task ended. After a fault nothing more is written: a buffer that is
/// let go would write what it holds.
fn finish<W: Write + Drop>(mut out: BufWriter<W>, end: Result<u64, Fault>) -> Result<u64, Fault> {
    let told = match end {
        Ok(count) => match out.flush() {
            Ok(()) => Ok(count),
            Err(_) => Err(Fault::WriteFailed),
        },
        Err(fault) => Err(fault),
    };
    let _ = out.into_parts();
    told
}

/// Does a task that writes a long text over the database, and writes that in large pieces.
fn publish(rt: &HostRuntime, task: &FileTask<'_>, file: &str) -> Result<u64, Fault>
    requires { IsWithinOnFile task.now }
{
    let Ok(mut out) = BufWriter::with_capacity(rt.alloc(), PIECE, rt.stdout()) else {
        return Err(Fault::OutOfMemory);
    };
    let end = run_on(rt, task, file, &mut out);
    finish(out, end)
}

/// Answers HTTP requests over the database.
fn answer(rt: &HostRuntime, file: &str, port: u16, count: Option<u32>) -> Result<u64, Fault> {
    if file == ":memory:" {
        let conn = Connection::open_in_memory(rt.alloc())?;
        let (_, end) = listen(rt, port, count, conn, &mut rt.stdout());
        return end;
    }
    let (_, end) = listen_on_file(rt, port, count, file, Unknown, &mut rt.stdout());
    end
}

/// Does a task over the database, with standard output.
fn run_task(rt: &HostRuntime, task: &FileTask<'_>, file: &str) -> Result<u64, Fault>
    requires { IsWithinOnFile task.now }
{
    match task {
        FileTask::Feed { .. } | FileTask::Day { .. } | FileTask::History { .. } => {
            publish(rt, task, file)
        }
        FileTask::Init
        | FileTask::Check
        | FileTask::Raise
        | FileTask::Lines
        | FileTask::Import { .. } => run_on(rt, task, file, &mut rt.stdout()),
    }
}

/// Does what the words ask over the database.
fn run(rt: &HostRuntime, task: &Task<'_>, file: &str) -> Result<u64, Fault>
    requires { IsWithin task.now }
{
    match task {
        Task::OnFile(task) => run_task(rt, task, file),
        Task::Serve { port, count } => answer(rt, file, *port, *count),
    }
}

fn main(rt: HostRuntime) -> ExitCode {
    let args = match env::args(&rt) {
        Ok(args) => args,
        Err(error) if error.kind() == ErrorKind::OutOfMemory => {
            return exit_code(&mut rt.stderr(), &Err(Fault::OutOfMemory));
        }
        Err(_) => return tell_mistake(&rt, &Mistake::NoText),
    };
    let Ok(texts) = args.skip(1).collect::<Vec<String>>(rt.alloc()) else {
        return exit_code(&mut rt.stderr(), &Err(Fault::OutOfMemory));
    };
    let Ok(words) = lent(rt.alloc(), texts.as_slice()) else {
        return exit_code(&mut rt.stderr(), &Err(Fault::OutOfMemory));
    };
    match read_words(rt.alloc(), words.as_slice()) {
        Ok(words) => exit_code(&mut rt.stderr(), &run(&rt, &words.task, words.file)),
        Err(WordsFault::Usage(mistake)) => tell_mistake(&rt, &mistake),
        Err(WordsFault::NoMemory) => exit_code(&mut rt.stderr(), &Err(Fault::OutOfMemory)),
    }
}
