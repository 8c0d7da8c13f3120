// The pick program: an image and one pick record on standard input, a bitfield of ones, every draw 0. It prints the blocks picked, a line
// each, then the flags, the draws used and the counters; or the refusal.
#![tactic(auto)]

mod printing;
mod reading;

ghost use Rattle.std.specs.Prelude.{◌≡◌, IfSome, OnOk, length, take};
ghost use Rattle.std.specs.Io.KnownBytes.{Appends};
ghost use Rattle.model.specs.image.Program.{program};
ghost use Rattle.pick.specs.Printed.{printed};

use pick_job::job;
use std::io;
use std::io::{Read, Write};

// The largest image with a pick record is 1,768,515 bytes long: what is longer has its first fault in what is read.
fn input_buffer() -> [u8; 1769472]
    ensures { 1769472 ≡ length result }
{
    [0; 1769472]
}

// The largest pick's output.
fn output_buffer() -> [u64; 4351]
    ensures { 4351 ≡ length result }
{
    [0; 4351]
}

// Prints what the definition's program answers to what is read.
fn answer<R: Read, W: Write>(from: &mut R, to: &mut W) -> io::Result<()>
    ensures { OnOk result (IfSome (R.remaining from.old)
        (λ xs. Appends (W.contents to.old) (W.contents to.new) (printed (program (take 1769472 xs))))) }
{
    let mut input = input_buffer();
    let mut out = output_buffer();
    let n = reading::read_full(from, &mut input)?;
    let told = job(&input[..n], &mut out);
    printing::print_answer(to, told, &out)
}

fn main(rt: HostRuntime) -> io::Result<()> {
    answer(&mut rt.reader(), &mut io::writer(&rt))
}
