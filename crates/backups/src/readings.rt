// Texts that are read, and texts that are not.
use crate::asks;
use std::io;

pub fn written(rt: &impl Print, region: &[u8]) -> io::Result<()> {
    asks::write(rt, "the table", region, &mut [b'.'; 180])
}

// ---- 27: what is no line of the grammar

fn digits(rt: &impl Print, region: &mut [u8]) -> io::Result<()> {
    asks::read(
        rt,
        "upper-case digits",
        region,
        "# a comment\n00000000000000000000000000000000000000FF refs/heads/aisle-10\n",
    )?;
    asks::read(
        rt,
        "no digit",
        region,
        "000000000000000000000000000000000000000g refs/heads/aisle-10\n",
    )?;
    asks::read(
        rt,
        "above 2^64-1",
        region,
        "0000000000000000000000010000000000000007 refs/tags/2026-13\n",
    )
}

fn ends(rt: &impl Print, region: &mut [u8]) -> io::Result<()> {
    asks::read(
        rt,
        "no line feed",
        region,
        "0000000000000000000000000000000000000007 refs/heads/a",
    )?;
    asks::read(
        rt,
        "two spaces",
        region,
        "0000000000000000000000000000000000000007  refs/heads/a\n",
    )?;
    asks::read(
        rt,
        "a CR",
        region,
        "0000000000000000000000000000000000000007 refs/heads/a\r\n",
    )?;
    asks::read(rt, "an empty line", region, "\n")?;
    asks::read(rt, "a comment without its line feed", region, "#\n#")
}

fn order(rt: &impl Print, region: &mut [u8]) -> io::Result<()> {
    asks::read(
        rt,
        "a name twice",
        region,
        "0000000000000000000000000000000000000001 refs/heads/a\n# a comment\n0000000000000000000000000000000000000001 refs/heads/a\n",
    )?;
    asks::read(
        rt,
        "names that fall",
        region,
        "0000000000000000000000000000000000000001 refs/heads/b\n0000000000000000000000000000000000000001 refs/heads/a\n",
    )
}

fn peeled(rt: &impl Print, region: &mut [u8]) -> io::Result<()> {
    asks::read(
        rt,
        "a peeled line first",
        region,
        "^8f3a52c0d1e6b7948f3a52c0d1e6b7948f3a52c0\n",
    )?;
    asks::read(
        rt,
        "a peeled line twice",
        region,
        "0000000000000000000000000000000000000001 refs/heads/a\n^8f3a52c0d1e6b7948f3a52c0d1e6b7948f3a52c0\n^8f3a52c0d1e6b7948f3a52c0d1e6b7948f3a52c0\n",
    )?;
    asks::read(
        rt,
        "a peeled line after a comment",
        region,
        "0000000000000000000000000000000000000001 refs/heads/a\n#\n^8f3a52c0d1e6b7948f3a52c0d1e6b7948f3a52c0\n",
    )
}

// ---- 21: what cannot be packed

fn unpackable(rt: &impl Print, region: &mut [u8]) -> io::Result<()> {
    asks::read(
        rt,
        "object 0",
        region,
        "0000000000000000000000000000000000000000 refs/tags/2026-13\n",
    )?;
    asks::read(
        rt,
        "a name that is not packable",
        region,
        "0000000000000000000000000000000000000004 refs/worktree/a\n",
    )?;
    asks::read(
        rt,
        "and a later line at fault",
        region,
        "0000000000000000000000000000000000000004 refs/worktree/a\n\n",
    )
}

// The table is as it was.
pub fn refused(rt: &impl Print, region: &mut [u8]) -> io::Result<()> {
    digits(rt, region)?;
    ends(rt, region)?;
    order(rt, region)?;
    peeled(rt, region)?;
    unpackable(rt, region)?;
    written(rt, region)
}

// ---- what is read: the document's text that git may have written, and a text of no lines

pub fn taken(rt: &impl Print, region: &mut [u8]) -> io::Result<()> {
    asks::read(
        rt,
        "by git",
        region,
        "# pack-refs with: peeled fully-peeled sorted \n00000000000000000000000000000000000000ff refs/heads/aisle-10\n0000000000000000000000000000000000010001 refs/tags/2026-11\n^8f3a52c0d1e6b7948f3a52c0d1e6b7948f3a52c0\n0000000000000000000000000000000000000003 refs/tags/2026-12\n",
    )?;
    written(rt, region)?;
    asks::name(rt, region, "refs/tags/2026-12")?;
    asks::read(rt, "no lines", region, "")?;
    written(rt, region)
}
