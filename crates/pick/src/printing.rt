// The program's answers as lines of text.
ghost use Rattle.std.specs.Prelude.{OnOk, codes};
ghost use Rattle.std.specs.Io.KnownBytes.{Appends};
ghost use Rattle.std.specs.List.{flat_map};
ghost use Rattle.model.specs.Calls.{picked, refused};
ghost use Rattle.pick_state.specs.PickStates.{block_from, blocks_between};
ghost use Rattle.pick_pieces.specs.Whole.{loops_of};
ghost use Rattle.pick_job.specs.Jobs.{answer_of};
ghost use Rattle.pick.specs.Printed.{block_line, named, printed};

use pick_pieces::Picked;
use std::io;
use std::io::Write;
use types::Refusal;

// Words of the output, each a piece and a block.
fn print_blocks<W: Write>(to: &mut W, words: &[u64]) -> io::Result<()>
    ensures { OnOk result (Appends (W.contents to.old) (W.contents to.new)
        (flat_map (λ w. block_line (block_from w)) words.now)) }
{
    for &word in words {
        writeln!(to, "{} {}", word / 65536, word % 65536)?;
    }
    Ok(())
}

fn print_loops<W: Write>(to: &mut W, p: &Picked) -> io::Result<()>
    ensures { OnOk result (Appends (W.contents to.old) (W.contents to.new) (named (codes "loops") (loops_of p.now))) }
{
    write!(
        to,
        "loops {} {} {}",
        p.partial_loops, p.suggest_loops, p.reverse_rare_loops
    )?;
    writeln!(
        to,
        " {} {} {} {}",
        p.rare_loops, p.rand_start_loops, p.rand_loops, p.busy_loops
    )
}

// The blocks stand in the first words of the output.
fn print_picked<W: Write>(to: &mut W, p: &Picked, out: &[u64]) -> io::Result<()>
    ensures { OnOk result (Appends (W.contents to.old) (W.contents to.new)
        (printed (picked (blocks_between 0 p.now.end out.now) p.now.flags (loops_of p.now) p.now.used))) }
{
    let end = p.end.min(out.len());
    print_blocks(to, &out[..end])?;
    writeln!(to, "flags {}", p.flags)?;
    writeln!(to, "draws {}", p.used)?;
    print_loops(to, p)
}

// Its number, and for 13 the place of the fault.
fn print_refusal<W: Write>(to: &mut W, why: Refusal) -> io::Result<()>
    ensures { OnOk result (Appends (W.contents to.old) (W.contents to.new) (printed (refused why))) }
{
    let number = why.number();
    match why {
        Refusal::IllFormedImage(place) => writeln!(to, "refused {number} {place}"),
        _ => writeln!(to, "refused {number}"),
    }
}

pub fn print_answer<W: Write>(
    to: &mut W,
    told: Result<Picked, Refusal>,
    out: &[u64],
) -> io::Result<()>
    ensures { OnOk result (Appends (W.contents to.old) (W.contents to.new) (printed (answer_of out.now told))) }
{
    match told {
        Err(why) => print_refusal(to, why),
        Ok(p) => print_picked(to, &p, out),
    }
}
