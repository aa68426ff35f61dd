// Names beneath names.
ghost use Rattle.std.specs.Prelude.{◌<◌, length};
ghost use Rattle.model.specs.Store.{rows_in};
ghost use Rattle.region.specs.Region.{view, Laid};

use crate::{Of, fault};
use std::io;
use target::NameNumber;

fn name(rt: &impl Print, region: &[u8], n: NameNumber) -> io::Result<()>
    requires { Laid region.now }
{
    let fine = !beneath::is_loose(region, n) || !beneath::loose_above(region, n);
    fault(rt, fine, Of::Name(n), "has a loose value beneath another's")
}

fn row(rt: &impl Print, region: &[u8], i: usize) -> io::Result<()>
    requires laid { Laid region.now }
    requires i_in_bounds { i < length (rows_in (view region.now).prepared) }
{
    let change = region::row_at(region, i).update.change;
    let fine = !beneath::conflicts(region, region::mode(region), i, change.existing());
    fault(
        rt,
        fine,
        Of::Row(i),
        "is on a name that another is in the way of",
    )
}

pub fn all(rt: &impl Print, region: &[u8]) -> io::Result<()>
    requires { Laid region.now }
{
    println!(rt; "rules of names beneath names are broken")?;
    for n in 0..region::count_names(region) {
        name(rt, region, NameNumber::at(n))?;
    }
    for i in 0..region::count_rows(region) {
        row(rt, region, i)?;
    }
    Ok(())
}

// Asked only where every row's name is registered.
pub fn is_fine(region: &[u8]) -> bool
    requires { Laid region.now }
{
    !rules::rows_fine(region) || nests::nests_fine(region)
}
