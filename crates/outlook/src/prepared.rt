// The prepared transaction, row by row.
ghost use Rattle.std.specs.Prelude.{◌<◌, length};
ghost use Rattle.model.specs.Fine.{Fine};
ghost use Rattle.model.specs.Store.{rows_in};
ghost use Rattle.region.specs.Region.{view, Laid};

use crate::plan;
use listing::entries::{Called, Place, Pointed};
use std::{fmt, io};
use transaction::{Change, PackedRefs, PreviousValue, RefEdit, RefLog};

// ---- one row

// What a row does to its name.
#[derive(Clone, Copy)]
struct Changed<'a> {
    region: &'a [u8],
    update: RefEdit,
    ghost laid: { Laid region.now },
}

impl fmt::Display for Changed<'_> {
    fn fmt<W: fmt::Write>(&self, f: &mut fmt::Formatter<W>) -> fmt::Result {
        let region = self.region;
        let RefEdit { change, name, .. } = self.update;
        let name = Called { region, name };
        match change {
            Change::Update {
                log,
                new: target,
                ..
            } => {
                let target = Pointed { region, target };
                write!(f, "update {name} to {target}, message {}", log.message)?;
            }
            Change::Delete { .. } => write!(f, "delete {name}")?,
        }
        let log = change.log();
        if log.mode == RefLog::Only {
            write!(f, ", log only")?;
        }
        if log.force_create_reflog {
            write!(f, ", forces a log")?;
        }
        Ok(())
    }
}

// What a row expects of the value that it replaces.
#[derive(Clone, Copy)]
struct Expected<'a> {
    region: &'a [u8],
    expected: PreviousValue,
    ghost laid: { Laid region.now },
}

impl fmt::Display for Expected<'_> {
    fn fmt<W: fmt::Write>(&self, f: &mut fmt::Formatter<W>) -> fmt::Result {
        let region = self.region;
        match self.expected {
            PreviousValue::Any => write!(f, "expects anything"),
            PreviousValue::MustExist => write!(f, "must exist"),
            PreviousValue::MustNotExist => write!(f, "must not exist"),
            PreviousValue::MustExistAndMatch(target) => {
                write!(f, "must exist and match {}", Pointed { region, target })
            }
            PreviousValue::ExistingMustMatch(target) => {
                write!(f, "existing must match {}", Pointed { region, target })
            }
        }
    }
}

// Two lines: what the row does, and what prepare made of it.
fn row(rt: &impl Print, region: &[u8], opened: bool, i: usize) -> io::Result<()>
    requires laid { Laid region.now }
    requires i_in_bounds { i < length (rows_in (view region.now).prepared) }
{
    let row = region::row_at(region, i);
    let update = row.update;
    println!(rt; "{i:>4}  {}", Changed { region, update })?;
    let expected = update.change.expected();
    let found = steps::found_of(region, opened, update.name);
    print!(rt;
        "      {}, found {}",
        Expected { region, expected },
        Place(found)
    )?;
    if let Some(parent) = row.parent_index {
        print!(rt; ", child of row {parent}")?;
    }
    let leaf = row.leaf_referent_previous_oid.0;
    if leaf > 0 {
        print!(rt; ", leaf-previous object {leaf}")?;
    }
    let kept = rows::keeps_lock(region, region::mode(region), row);
    println!(rt; ", lock {}", if kept { "kept" } else { "not kept" })
}

// ---- all of them

fn rows(rt: &impl Print, region: &[u8]) -> io::Result<()>
    requires { Laid region.now }
{
    let opened = kept::opens_table(region);
    for i in 0..region::count_rows(region) {
        row(rt, region, opened, i)?;
    }
    Ok(())
}

// What the packing mode does.
fn packing(mode: PackedRefs) -> &'static str {
    match mode {
        PackedRefs::DeletionsOnly => "deletions are packed",
        PackedRefs::DeletionsAndNonSymbolicUpdates => "updates are packed too",
        PackedRefs::DeletionsAndNonSymbolicUpdatesRemoveLooseSourceReference => {
            "updates are packed too, and their loose values go"
        }
    }
}

pub fn all(rt: &impl Print, region: &[u8]) -> io::Result<()>
    requires laid { Laid region.now }
    requires fine { Fine (view region.now) }
{
    let number = region::mode_number(region);
    if number == 0 {
        return println!(rt; "nothing is prepared");
    }
    println!(rt; "prepared rows: {}", region::count_rows(region))?;
    println!(rt; "mode: {number}, {}", packing(region::mode(region)))?;
    rows(rt, region)?;
    plan::all(rt, region)
}
