// Reads a sheet from standard input, carries out its records and prints their lines.
#![tactic(auto)]

ghost use Rattle.std.specs.Prelude.{IfSome, OnOk, OnErr};
ghost use Rattle.std.specs.Io.KnownBytes.{Appends};
ghost use Rattle.semantics.specs.Sheet.{run_sheet};
ghost use Rattle.printing.specs.Printing.{AppendsFront};

use reading::Failure;
use records::Record;
use std::io::{Read, Write};

// The sheet that an input has, all of it or a first part where there is a failure: what it prints stands on the output, where these are known.
fn close_sheet<R: Read, W: Write>(input: &mut R, output: &mut W) -> Result<(), Failure>
    ensures ok { OnOk result (IfSome (R.remaining input.old) (λ sheet. Appends (W.contents output.old) (W.contents output.new) (run_sheet sheet).printed)) }
    ensures err { OnErr result (IfSome (R.remaining input.old) (λ sheet. AppendsFront (W.contents output.old) (W.contents output.new) (run_sheet sheet).printed)) }
{
    let mut bytes = [0u8; Record::MAX_BYTES];
    let read = reading::read_all(input, &mut bytes).map_err(Failure::Input)?;
    // A sheet that is too long is refused by its length.
    let length = read.unwrap_or(Record::MAX_BYTES + 1);
    printing::print(output, &bytes, sheet::start(length)).map_err(Failure::Output)
}

fn main(rt: HostRuntime) {
    if let Err(failure) = close_sheet(&mut rt.stdin(), &mut rt.stdout()) {
        failure.tell(&mut rt.stderr());
    }
}
