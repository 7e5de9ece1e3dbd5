//! The exit statuses of the program.
ghost use Rattle.std.specs.Prelude.{◌≡◌, ◌≢◌, ℕ, Ok, Err, true, false, IsOkAnd, ◌⊎◌};
ghost use Rattle.std.specs.Process.{exit_status};
ghost use Rattle.clap.specs.Values.{kind_of};

use crate::fault::Fault;
use clap::Error;
use clap::error::ErrorKind;
use outage_script::ScriptEnd;
use std::process::ExitCode;
use storm::StormEnd;
use vclock::Refusal;

/// Every line was read and answered, or the help was shown.
const DONE: u8 = 0;

/// A line of the script isn't a command.
const BAD_LINE: u8 = 1;

/// A storm did not end with equal roots and all settled.
const BAD_STORM: u8 = 1;

/// The words of the command line are wrong.
const USAGE: u8 = 2;

/// A device failed, or memory ran out.
const FAULT: u8 = 3;

/// Returns the status of a script's end, or the fault that ended it.
pub(crate) fn code_of(end: ScriptEnd) -> Result<ExitCode, Fault>
    ensures done { end ≡ ScriptEnd.Done → IsOkAnd result (λ code. exit_status code ≡ 0) }
    ensures bad_line { (number : ℕ) → end ≡ ScriptEnd.BadLine number
        → IsOkAnd result (λ code. exit_status code ≡ 1) }
    ensures device { end ≡ ScriptEnd.Device → result ≡ Err Fault.Device }
    ensures no_memory { end ≡ ScriptEnd.NoMemory → result ≡ Err Fault.NoMemory }
{
    match end {
        ScriptEnd::Done => Ok(ExitCode::from(DONE)),
        ScriptEnd::BadLine(_) => Ok(ExitCode::from(BAD_LINE)),
        ScriptEnd::Device => Err(Fault::Device),
        ScriptEnd::NoMemory => Err(Fault::NoMemory),
    }
}

/// Returns the status of a storm's end, or the fault that ended it.
pub(crate) fn code_of_storm(end: &Result<StormEnd, Refusal>) -> Result<ExitCode, Fault>
    ensures done { (e : StormEnd) → end.now ≡ Ok e → e.equal ≡ true → e.settled ≡ true
        → IsOkAnd result (λ code. exit_status code ≡ 0) }
    ensures differ { (e : StormEnd) → end.now ≡ Ok e → e.equal ≡ false
        → IsOkAnd result (λ code. exit_status code ≡ 1) }
    ensures unsettled { (e : StormEnd) → end.now ≡ Ok e → e.settled ≡ false
        → IsOkAnd result (λ code. exit_status code ≡ 1) }
    ensures no_memory { end.now ≡ Err Refusal.NoMemory → result ≡ Err Fault.NoMemory }
    ensures refused { (e : Refusal) → end.now ≡ Err e → e ≢ Refusal.NoMemory
        → IsOkAnd result (λ code. exit_status code ≡ 1) }
{
    match end {
        Ok(end) if end.equal && end.settled => Ok(ExitCode::from(DONE)),
        Err(Refusal::NoMemory) => Err(Fault::NoMemory),
        _ => Ok(ExitCode::from(BAD_STORM)),
    }
}

/// Returns the status of words that clap refused: 0 if they ask for help or the version, otherwise 2.
pub(crate) fn code_of_refusal(refusal: &Error) -> Result<ExitCode, Fault>
    ensures no_memory { kind_of refusal.now ≡ ErrorKind.OutOfMemory
        → result ≡ Err Fault.NoMemory }
    ensures shown { (kind_of refusal.now ≡ ErrorKind.DisplayHelp)
        ⊎ (kind_of refusal.now ≡ ErrorKind.DisplayVersion)
        → IsOkAnd result (λ code. exit_status code ≡ 0) }
    ensures mistake { kind_of refusal.now ≢ ErrorKind.OutOfMemory
        → kind_of refusal.now ≢ ErrorKind.DisplayHelp
        → kind_of refusal.now ≢ ErrorKind.DisplayVersion
        → IsOkAnd result (λ code. exit_status code ≡ 2) }
{
    match refusal.kind() {
        ErrorKind::OutOfMemory => Err(Fault::NoMemory),
        ErrorKind::DisplayHelp | ErrorKind::DisplayVersion => Ok(ExitCode::from(DONE)),
        _ => Ok(usage_code()),
    }
}

/// Returns the status of wrong words.
pub(crate) fn usage_code() -> ExitCode
    ensures { exit_status result ≡ 2 }
{
    ExitCode::from(USAGE)
}

/// Returns the status of every fault.
pub(crate) fn fault_code() -> ExitCode
    ensures { exit_status result ≡ 3 }
{
    ExitCode::from(FAULT)
}
