//! The program `minisign_compare`: reads requests from standard input, one on each line, calls the
//! library, and prints one line for each. The program in `compare/oracle`, which calls the Rust
//! crate `minisign`, answers the same requests in the same format. `compare/README.md` describes
//! both.
#![tactic(auto)]

mod building_blocks;
mod devices;
mod judging;
mod pairs;
mod public_keys;
mod refusals;
mod replies;
mod requests;
mod secret_keys;
mod signatures;
mod table;
mod words;

use minisign::PError;
use refusals::Refusal;
use replies::Reply;
use requests::{Request, request_of};
use std::io::{self, BufRead, BufReader, BufWriter, Write};
use std::process::ExitCode;
use table::Table;

fn main(rt: HostRuntime) -> io::Result<ExitCode> {
    let mut answers = BufWriter::new(rt.alloc(), io::writer(&rt))?;
    let code = answer_all(&rt, &mut answers)?;
    answers.flush()?;
    Ok(code)
}

// Answers each line. Stops with exit status 3 at a line that is not a request.
fn answer_all<W: Write>(rt: &HostRuntime, answers: &mut W) -> io::Result<ExitCode> {
    let mut table = Table::new(rt.alloc());
    for line in BufReader::new(rt.alloc(), rt.reader())?.lines(rt.alloc()) {
        if !answer_read(rt, &mut table, line, answers)? {
            return Ok(ExitCode::from(3));
        }
    }
    Ok(ExitCode::SUCCESS)
}

// Answers a line. If it is not a request, returns false, and reports the line on standard error
// after the answers to the lines before it have been written.
fn answer_read<W: Write>(
    rt: &HostRuntime,
    table: &mut Table,
    line: io::Result<String>,
    answers: &mut W,
) -> io::Result<bool> {
    let line = line?;
    let is_answered = answer_line(rt, table, line.as_str(), answers)?;
    if !is_answered {
        answers.flush()?;
        eprintln!(rt; "bad request: {line}")?;
    }
    Ok(is_answered)
}

// Answers a line. Empty lines and comments get no answer. Returns false if the line is not a
// request.
fn answer_line<W: Write>(
    rt: &HostRuntime,
    table: &mut Table,
    line: &str,
    answers: &mut W,
) -> io::Result<bool> {
    if line.is_empty() || line.starts_with("#") {
        return Ok(true);
    }
    let Some(request) = request_of(line) else {
        return Ok(false);
    };
    let mut reply = Reply::new(rt.alloc());
    let answer = answer(rt, table, request, line, &mut reply);
    print(rt, answers, answer, &mut reply)
}

// Makes the call that a request names, and adds its results to the reply.
fn answer(
    rt: &HostRuntime,
    table: &mut Table,
    request: &Request,
    line: &str,
    reply: &mut Reply,
) -> Result<(), Refusal> {
    match request {
        Request::PublicKey(asked) => public_keys::answer(rt, asked, line, reply),
        Request::SecretKey(asked) => secret_keys::answer(rt, asked, line, reply),
        Request::Signature(asked) => signatures::answer(rt, asked, line, reply),
        Request::Pair(asked) => pairs::answer(rt.alloc(), asked, line, reply),
        Request::Block(asked) => building_blocks::answer(rt.alloc(), asked, line, reply),
        Request::Sign => judging::answer_sign(rt.alloc(), table, line, reply),
        Request::Verify | Request::VerifyTexts => {
            judging::answer_verify(rt.alloc(), table, request, line, reply)
        }
        Request::TableAdd => table.add(rt.alloc(), line),
        Request::TableClear => {
            table.clear();
            Ok(())
        }
    }
}

// Prints the answer. Returns false if the line was not a request.
fn print<W: Write>(
    rt: &HostRuntime,
    answers: &mut W,
    answer: Result<(), Refusal>,
    reply: &mut Reply,
) -> io::Result<bool> {
    let printed = match reply.end(answer) {
        Ok(()) => print_fields(answers, reply.fields.as_str()),
        Err(Refusal::Fault(fault)) => print_fault(rt, answers, &fault),
        Err(Refusal::OutsideConditions) => write!(answers, "outside"),
        Err(Refusal::BadRequest) => return Ok(false),
    };
    printed?;
    let (tail, deeds) = (reply.tail.as_str(), reply.deeds.as_str());
    writeln!(answers, " | {tail} {deeds}")?;
    Ok(true)
}

// Prints the fields of a result.
fn print_fields<W: Write>(answers: &mut W, fields: &str) -> io::Result<()> {
    if fields.is_empty() {
        return write!(answers, "ok");
    }
    write!(answers, "ok {fields}")
}

// Prints an error that a call returned.
fn print_fault<W: Write>(rt: &HostRuntime, answers: &mut W, fault: &PError) -> io::Result<()> {
    let text = format!(in rt.alloc(); "{fault}")?;
    let digits = hex::encode(rt.alloc(), text.as_bytes())?;
    write!(answers, "err {:?} x{digits}", fault.kind())
}
