// The log, by name.
ghost use Rattle.region.specs.Region.{Laid};

use crate::entries::Called;
use model::Line;
use std::{fmt, io};
use target::{NameNumber, ObjectNumber};

// From one object to another, as a line has it.
#[derive(Clone, Copy)]
pub struct Moved(pub Line);

impl fmt::Display for Moved {
    fn fmt<W: fmt::Write>(&self, f: &mut fmt::Formatter<W>) -> fmt::Result {
        let Line { previous, new, .. } = self.0;
        if previous.0 == ObjectNumber::NULL {
            write!(f, "from none to object {}", new.0)
        } else {
            write!(f, "from object {} to object {}", previous.0, new.0)
        }
    }
}

// A name with its lines, each with its place among them.
fn log_of(rt: &impl Print, region: &[u8], name: NameNumber) -> io::Result<()>
    requires { Laid region.now }
{
    println!(rt; "    {}", Called { region, name })?;
    let mut place = 0u64;
    for i in 0..region::count_lines(region) {
        let line = region::line_at(region, i);
        if line.name == name {
            println!(rt;
                "    {place:>4}  {}, by {}, message {}",
                Moved(line),
                line.committer,
                line.message
            )?;
            place += 1;
        }
    }
    Ok(())
}

pub fn all(rt: &impl Print, region: &[u8]) -> io::Result<()>
    requires { Laid region.now }
{
    println!(rt; "log lines: {}", region::count_lines(region))?;
    for n in 0..region::count_names(region) {
        let name = NameNumber::at(n);
        if rows::has_lines(region, name) {
            log_of(rt, region, name)?;
        }
    }
    Ok(())
}
