// Whether a region is good, and what it is shown as.
ghost use Rattle.region.specs.Region.{Laid};

use crate::store;
use region::Layout;
use std::io;

fn laid(rt: &(impl Print + AllocGlobal), region: &[u8]) -> io::Result<()>
    requires { Laid region.now }
{
    if good::is_fine(region) {
        return store::all(rt, region);
    }
    println!(rt; "not a good region")?;
    broken::all(rt, region)
}

// What another size of a region can still tell.
fn wrong_size(rt: &impl Print, region: &[u8], size: u64) -> io::Result<()> {
    println!(rt; "not a good region")?;
    println!(rt; "the size is {size}, and must be {}", Layout::SIZE)?;
    if region.len() < 5 {
        return Ok(());
    }
    faults::version(rt, region)
}

// The region is what was read of an input of so many bytes.
pub fn region(rt: &(impl Print + AllocGlobal), region: &[u8], size: u64) -> io::Result<()> {
    if region.len() != Layout::SIZE {
        return wrong_size(rt, region, size);
    }
    if layout::is_laid(region) {
        return laid(rt, region);
    }
    println!(rt; "not a good region")?;
    faults::all(rt, region)
}
