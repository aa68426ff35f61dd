// The writes that a commit of the prepared transaction would make, in order, for a committer that is there.
ghost use Rattle.std.specs.Prelude.{◌+◌, ◌<◌, ◌≤◌, length, IfOk};
ghost use Rattle.model.specs.Fine.{Fine};
ghost use Rattle.region.specs.Region.{view, Laid};
ghost use Rattle.rows.specs.Rows.{Named};
ghost use Rattle.writes.specs.Next.{rows_of, places};
ghost use Rattle.writes.specs.Told.{Told};

use listing::entries::{Called, Pointed};
use listing::log::Moved;
use std::{fmt, io};
use target::NameNumber;
use writes::NextWrite;

// A write: its rule, and what it does. Of the packed write the names that it sets or removes come in lines of their own.
#[derive(Clone, Copy)]
struct Planned<'a> {
    region: &'a [u8],
    write: NextWrite,
    ghost laid: { Laid region.now },
}

impl fmt::Display for Planned<'_> {
    fn fmt<W: fmt::Write>(&self, f: &mut fmt::Formatter<W>) -> fmt::Result {
        let region = self.region;
        match self.write {
            NextWrite::AppendLine(line) => {
                let name = line.name;
                write!(f, "W1  append to the log of {} ", Called { region, name })?;
                write!(f, "{}, message {}", Moved(line), line.message)
            }
            NextWrite::WriteLoose(name, target) => {
                write!(f, "W1  write loose {}, ", Called { region, name })?;
                write!(f, "{}", Pointed { region, target })
            }
            NextWrite::RemoveLog(name) => {
                write!(f, "W2  remove the log of {}", Called { region, name })
            }
            NextWrite::WritePacked => write!(f, "W3  write the packed table"),
            NextWrite::RemoveLoose(name) => {
                write!(f, "W4  remove loose {}", Called { region, name })
            }
        }
    }
}

// The names that the packed write sets or removes.
fn packed_rows(rt: &impl Print, region: &[u8]) -> io::Result<()>
    requires laid { Laid region.now }
    requires named { Named (view region.now) }
{
    let mode = region::mode(region);
    for i in 0..region::count_rows(region) {
        let row = region::row_at(region, i);
        let name = row.update.name;
        if let Some(value) = writes::packed_edit(region, mode, row) {
            print!(rt; "          {} ", Called { region, name })?;
            match value {
                None => println!(rt; "removed")?,
                Some(oid) => println!(rt; "set to object {}", oid.0)?,
            }
        }
    }
    Ok(())
}

// A write, if there is one, behind so many others: how many there are with it.
fn tell(rt: &impl Print, region: &[u8], made: usize, write: Option<NextWrite>) -> io::Result<usize>
    requires laid { Laid region.now }
    requires named { Named (view region.now) }
    requires made_bound { made < 1000 }
    ensures { IfOk result (λ n. n ≤ made + 1) }
{
    let Some(write) = write else {
        return Ok(made);
    };
    println!(rt; "{:>4}  {}", made + 1, Planned { region, write })?;
    if matches!(write, NextWrite::WritePacked) {
        packed_rows(rt, region)?;
    }
    Ok(made + 1)
}

// The one or two writes of each place. Any committer does: a line is due whoever commits.
fn tell_all(rt: &impl Print, region: &[u8], flags: &[bool]) -> io::Result<usize>
    requires laid { Laid region.now }
    requires named { Named (view region.now) }
    requires told { Told flags.now (view region.now) (rows_of (view region.now)) 0 }
{
    let mut made = 0;
    for k in 0..region::count_rows(region) * 3 + 1 {
        made = tell(rt, region, made, writes::next_first(region, flags, 1, k))?;
        made = tell(rt, region, made, writes::next_second(region, k))?;
    }
    Ok(made)
}

// How many writes there are, each told.
fn plan(rt: &impl Print, region: &[u8]) -> io::Result<usize>
    requires laid { Laid region.now }
    requires fine { Fine (view region.now) }
{
    let mut flags = [false; NameNumber::LIMIT];
    rows::flag_lines(region, &mut flags);
    tell_all(rt, region, &flags)
}

pub fn all(rt: &impl Print, region: &[u8]) -> io::Result<()>
    requires laid { Laid region.now }
    requires fine { Fine (view region.now) }
{
    println!(rt; "a commit would write")?;
    let made = plan(rt, region)?;
    println!(rt; "writes: {made}")
}
