//! Lays a message out as a word, erases one symbol, works it back and prints each step.
//! The message is the seven arguments, or 6 5 4 6 7 4 3 where there are none.
#![tactic(auto)]

ghost use Rattle.std.specs.Prelude.{◌≡◌, IfOk, Ok, Some, string_bytes, codes, decimal};
ghost use Rattle.std.specs.Option.{unwrap_or, option_map};
ghost use Rattle.demo.specs.Messages.{message_answer};
ghost use Rattle.sample_word.specs.Answers.{demonstrate_answer};

use anyhow::anyhow;
use faults::Fault;
use sample_word::{Demonstration, demonstrate, read_message};
use std::{env, fmt, io};

/// The message that the arguments write, or the sample where there are none.
fn message(arguments: &[String]) -> Result<[u16; 7], Fault>
    ensures { result ≡ message_answer string_bytes arguments.now }
{
    if arguments.is_empty() {
        return Ok([6, 5, 4, 6, 7, 4, 3]);
    }
    read_message(arguments)
}

/// A message, and what becomes of its word.
#[derive(Clone, Copy)]
struct Worked {
    message: [u16; 7],
    shown: Demonstration,
}

/// The message that the arguments write, and what becomes of its word.
fn work(arguments: &[String]) -> Result<Worked, Fault>
    ensures message { IfOk result (λ w. message_answer string_bytes arguments.now ≡ Ok w.message) }
    ensures shown { IfOk result (λ w. demonstrate_answer w.message ≡ Ok w.shown) }
{
    let message = message(arguments)?;
    let shown = demonstrate(&message)?;
    Ok(Worked { message, shown })
}

/// A symbol that is received, and none where it is erased.
#[derive(Clone, Copy)]
struct Received(Option<u16>);

/// The symbol, or `-` at an erasure.
impl fmt::Display for Received {
    ghost output = { λ r. Some (unwrap_or (option_map decimal r.0) (codes "-")) };

    fn fmt<W: fmt::Write>(&self, f: &mut fmt::Formatter<W>) -> fmt::Result {
        match self.0 {
            Some(x) => write!(f, "{x}"),
            None => write!(f, "-"),
        }
    }
}

/// A name, and symbols parted by spaces.
fn print_symbols<S: fmt::Display>(rt: &HostRuntime, name: &str, symbols: &[S]) -> io::Result<()> {
    print!(rt; "{name:<9}")?;
    for x in symbols {
        print!(rt; " {x}")?;
    }
    println!(rt; "")
}

/// The five lines of a message and its demonstration.
fn print_all(rt: &HostRuntime, worked: &Worked) -> io::Result<()> {
    let shown = &worked.shown;
    print_symbols(rt, "message", &worked.message)?;
    print_symbols(rt, "word", &shown.word)?;
    print_symbols(rt, "received", &shown.received.map(Received))?;
    print_symbols(rt, "restored", &shown.restored)?;
    print_symbols(rt, "row sums", &shown.row_sums)
}

fn main(rt: HostRuntime) -> anyhow::Result<()> {
    let arguments: Vec<String> = env::args(&rt)?.skip(1).collect(rt.alloc())?;
    match work(&arguments) {
        Ok(worked) => Ok(print_all(&rt, &worked)?),
        Err(fault) => {
            println!(rt; "{fault}")?;
            Err(anyhow!("refused"))
        }
    }
}
