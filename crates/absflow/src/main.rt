//! The program `absflow`: `script FILE` runs a script, `run JOB INPUT..` runs a job over its
//! inputs, `check JOB` judges a job file, and no word at all runs the script on standard input.
#![tactic(auto)]

ghost use Rattle.command_line.specs.Line.{AsksInRange};

use absflow_run::{check, script};
use command_line::{Line, parse_line};
use job_runner::{Input, Options, run_job};
use std::fs::File;
use std::io::{BufRead, BufReader, BufWriter, ErrorKind, Read};
use std::process::ExitCode;
use std::sync::Wait;
use std::thread::Threads;
use std::time::Clock;
use std::{env, fs, io};

/// A command on a text, which answers the exit status.
#[derive(Clone, Copy)]
enum Command {
    Script,
    Check,
}

/// Does the command: its answers on standard output, a refusal on standard error.
fn run<R: Read + Drop>(rt: &HostRuntime, command: Command, file: R) -> io::Result<ExitCode> {
    let alloc = rt.alloc();
    let mut out = BufWriter::new(alloc, io::writer(rt))?;
    let mut err = rt.stderr();
    Ok(ExitCode::from(match command {
        Command::Script => script(alloc, file, &mut out, &mut err),
        Command::Check => check(alloc, file, &mut out, &mut err),
    }))
}

/// The file, with its first bytes read.
fn opened(rt: &HostRuntime, name: &str) -> io::Result<BufReader<File>> {
    let mut file = BufReader::new(rt.alloc(), fs::open(rt, name)?)?;
    file.fill_buf()?;
    Ok(file)
}

/// Does the command on the file of this name.
fn run_on(rt: &HostRuntime, command: Command, name: &str) -> io::Result<ExitCode> {
    match opened(rt, name) {
        Ok(file) => run(rt, command, file),
        Err(error) if error.kind() == ErrorKind::OutOfMemory => refuse(rt, "no memory"),
        Err(_) => {
            eprintln!(rt; "cannot read {name}")?;
            Ok(ExitCode::from(1))
        }
    }
}

fn refuse(rt: &HostRuntime, why: &str) -> io::Result<ExitCode> {
    eprintln!(rt; "{why}")?;
    Ok(ExitCode::from(1))
}

/// The file of this name, as it opens.
fn named<'a>(rt: &HostRuntime, name: &'a str) -> Input<'a, File> {
    Input {
        name,
        file: fs::open(rt, name),
    }
}

/// Runs the job in this file over the rows in these, in threads that this handle starts.
fn run_files<R: Threads + Wait + Clock + Sync>(
    rt: &HostRuntime,
    threads: &R,
    job: &str,
    inputs: &[&str],
    options: Options,
) -> io::Result<ExitCode> {
    let alloc = rt.alloc();
    let mut files = Vec::with_capacity(alloc, inputs.len())?;
    for name in inputs {
        files.push(named(rt, name))?;
    }
    let mut out = BufWriter::new(alloc, io::writer(rt))?;
    let mut err = rt.stderr();
    let job = named(rt, job);
    Ok(ExitCode::from(run_job(threads, alloc, job, files, options, &mut out, &mut err)))
}

/// Does the command of the line.
fn run_line<R: Threads + Wait + Clock + Sync>(
    rt: &HostRuntime,
    threads: &R,
    line: &Line<'_>,
) -> io::Result<ExitCode>
    requires { AsksInRange line.now }
{
    match line {
        Line::Script(name) => run_on(rt, Command::Script, name),
        Line::Check(name) => run_on(rt, Command::Check, name),
        Line::Run {
            job,
            inputs,
            workers,
            every,
            turns,
            batch,
        } => {
            let options = Options {
                workers: *workers,
                every: *every,
                turns: *turns,
                batch: *batch as u32,
            };
            run_files(rt, threads, job, inputs, options)
        }
    }
}

fn main(rt: HostRuntime) -> io::Result<ExitCode> {
    let alloc = rt.alloc();
    let words: Vec<String> = env::args(&rt)?.collect(alloc)?;
    if words.len() <= 1 {
        return run(&rt, Command::Script, rt.reader());
    }
    let mut texts = Vec::new(alloc);
    for word in &words {
        texts.push(word.as_str())?;
    }
    match parse_line(alloc, texts.as_slice()) {
        Ok(line) => run_line(&rt, &rt, &line),
        Err(error) => {
            error.print(&rt)?;
            Ok(ExitCode::from(error.exit_code() as u8))
        }
    }
}
