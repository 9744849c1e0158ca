//! The status of a program.
ghost use Rattle.std.specs.Prelude.{◌≡◌, ◌≤◌, IfOk};
ghost use Rattle.std.specs.Process.{exit_status};
ghost use Rattle.tool_stream.specs.Answering.{status_number};

use std::io;
use std::process::ExitCode;
use tool_grammar::RunError;

/// Returns the status of a program that stopped for this reason.
pub fn status_of(e: RunError) -> u8
    ensures number { result ≡ status_number e }
    ensures not_done { 1 ≤ result }
{
    match e {
        RunError::BadLine(_) => 2,
        RunError::Memory(_) => 1,
        RunError::Device => 1,
    }
}

/// Returns the exit code for a program's status. Reports an error of its start on standard error: 2 for a word that is no
/// text, otherwise 1 for out of memory.
pub fn exit_of<R: Eprint>(host: &R, status: io::Result<u8>) -> ExitCode
    ensures { IfOk status (λ number. exit_status result ≡ number) }
{
    match status {
        Ok(status) => ExitCode::from(status),
        Err(e) if e.kind() == io::ErrorKind::InvalidData => {
            let _ = eprintln!(host; "a word of the command line is not UTF-8");
            ExitCode::from(2)
        }
        Err(_) => {
            let _ = eprintln!(host; "memory");
            ExitCode::from(1)
        }
    }
}
