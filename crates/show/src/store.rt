// A good region.
ghost use Rattle.model.specs.Fine.{Fine};
ghost use Rattle.region.specs.Region.{view, Laid};

use listing::{entries, log};
use model::{Lock, WriteReflog};
use outlook::prepared;
use std::io;
use std::io::Write;

fn head(rt: &impl Print, region: &[u8]) -> io::Result<()>
    requires { Laid region.now }
{
    println!(rt; "a good region")?;
    let setting = match region::setting(region) {
        WriteReflog::Disable => "0, never",
        WriteReflog::Normal => "1, normal",
        WriteReflog::Always => "2, always",
    };
    println!(rt; "log setting: {setting}")?;
    match region::packed_lock(region) {
        Lock::Free => Ok(()),
        Lock::Foreign => println!(rt; "packed table locked by another"),
        Lock::Ours => println!(rt; "packed table locked by us"),
    }
}

// The packed table as text, as write_packed writes it. No text is longer than 256 lines of 106 bytes.
fn packed(rt: &(impl Print + AllocGlobal), region: &[u8]) -> io::Result<()> {
    let mut buffer = vec![in rt.alloc(); 0; 256 * 106]?;
    let length = packing::write_packed(region, &mut buffer).map_or(0, |verdict| verdict.places[0]);
    println!(rt; "packed table as text, bytes: {length}")?;
    if let Some(text) = buffer.get(..length as usize) {
        io::writer(rt).write_all(text)?;
    }
    Ok(())
}

pub fn all(rt: &(impl Print + AllocGlobal), region: &[u8]) -> io::Result<()>
    requires laid { Laid region.now }
    requires fine { Fine (view region.now) }
{
    head(rt, region)?;
    entries::all(rt, region)?;
    packed(rt, region)?;
    log::all(rt, region)?;
    prepared::all(rt, region)
}
