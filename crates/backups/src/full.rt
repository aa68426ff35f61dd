// 19: room for 256 names, with those that earlier lines added.
use crate::{asks, readings};
use reply::Reply;
use std::io;

// refs/tags/aa, .., refs/tags/pp, by number, without the last of them.
fn fill(region: &mut [u8]) {
    for i in 0..255u8 {
        let mut name = *b"refs/tags/aa";
        name[10] += i / 16;
        name[11] += i % 16;
        Reply::of(|answer| dehlbazin::dehlbazin_add_name(region, &name, answer));
    }
}

// One new name has room, and a second has none.
fn room(rt: &impl Print, region: &mut [u8]) -> io::Result<()> {
    asks::read(
        rt,
        "two new names",
        region,
        "0000000000000000000000000000000000000001 refs/heads/x\n0000000000000000000000000000000000000002 refs/heads/y\n",
    )?;
    asks::name(rt, region, "refs/tags/ab")?;
    asks::read(
        rt,
        "a new name",
        region,
        "0000000000000000000000000000000000000001 refs/heads/x\n0000000000000000000000000000000000000002 refs/tags/ab\n",
    )?;
    asks::read(
        rt,
        "one more",
        region,
        "0000000000000000000000000000000000000002 refs/heads/y\n",
    )?;
    asks::read(
        rt,
        "one more, and a later line at fault",
        region,
        "0000000000000000000000000000000000000002 refs/heads/y\n\n",
    )?;
    asks::name(rt, region, "refs/heads/x")
}

pub fn all(rt: &impl Print, region: &mut [u8]) -> io::Result<()> {
    asks::start(rt, region)?;
    fill(region);
    room(rt, region)?;
    readings::written(rt, region)
}
