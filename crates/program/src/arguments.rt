//! The arguments of a program that knows none but `--help`.
ghost use Rattle.std.specs.Prelude.{◌≡◌, ◌≢◌, false, true, IfOk, IsErr, None, Ok};
ghost use Rattle.program.specs.Arguments.{LoneHelp};

use std::env;
use thiserror::Error;

// What a program can be asked for by its arguments.
#[derive(Clone, Copy)]
enum Request {
    Run,
    Usage,
}

#[derive(Debug, Drop, Error)]
#[error("these arguments are not known")]
struct UnknownArguments;

// What the first two arguments ask for.
fn asked_for(first: Option<&str>, second: Option<&str>) -> Result<Request, UnknownArguments>
    ensures run { first.entry ≡ None → result ≡ Ok Request.Run }
    ensures usage { LoneHelp first.entry second.entry → result ≡ Ok Request.Usage }
    ensures unknown { (first.entry ≢ None) → (LoneHelp first.entry second.entry → ⊥) → IsErr result }
{
    match (first, second) {
        (None, _) => Ok(Request::Run),
        (Some("--help"), None) => Ok(Request::Usage),
        _ => Err(UnknownArguments),
    }
}

// Prints the usage where it is due, and answers whether the program is to do its work.
fn answer(
    rt: &HostRuntime,
    usage: &str,
    request: Result<Request, UnknownArguments>,
) -> anyhow::Result<bool>
    ensures run { request ≡ Ok Request.Run → result ≡ Ok true }
    ensures usage { request ≡ Ok Request.Usage → IfOk result (λ run. run ≡ false) }
    ensures unknown { IsErr request → IsErr result }
{
    match request {
        Ok(Request::Run) => Ok(true),
        Ok(Request::Usage) => {
            println!(rt; "{usage}")?;
            Ok(false)
        }
        Err(unknown) => {
            eprintln!(rt; "{usage}")?;
            Err(unknown.into())
        }
    }
}

/// Answers whether the program is to do its work: it is where it has no argument. For a lone `--help` the usage is printed;
/// at anything else it is printed on standard error, and the answer is an error.
/// No contract can say what a program reads or prints: `asked_for` and `answer` have what can be said.
pub fn asked_to_run(rt: &HostRuntime, usage: &str) -> anyhow::Result<bool> {
    let mut args = env::args(rt)?.skip(1);
    let first = args.next();
    let second = args.next();
    answer(rt, usage, asked_for(first.as_deref(), second.as_deref()))
}
