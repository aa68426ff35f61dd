// Where regions come from: files that are named as arguments, or standard input.
ghost use Rattle.std.specs.Prelude.{◌≤◌, length};

use crate::judge;
use region::Layout;
use std::env::{Env, FillError};
use std::io::{Read, Write};
use std::rt::{Files, Runtime};
use std::{fs, io, str};

// The path of a file has fewer bytes.
const PATH_LIMIT: usize = 4096;

// Fills a buffer from the front: with how many bytes, up to where the input ends or cannot be read.
fn fill(input: &mut impl Read, buffer: &mut [u8]) -> usize
    ensures { result ≤ length buffer.new }
{
    let mut filled = 0;
    for _ in 0..buffer.len() {
        match input.read(&mut buffer[filled..]) {
            Ok(0) | Err(_) => break,
            Ok(n) => filled += n,
        }
    }
    filled
}

// What is left of the input is counted, and not kept.
fn count_rest(input: &mut impl Read) -> u64 {
    let mut rest = [0; 4096];
    let mut count = 0u64;
    for _ in 0..u64::MAX {
        let more = fill(input, &mut rest);
        if more == 0 {
            break;
        }
        count = count.saturating_add(more as u64);
    }
    count
}

// There is room for a region and one byte more, which tells that an input is too long.
fn read(out: &(impl Print + AllocGlobal), input: &mut impl Read) -> io::Result<()> {
    let mut room = vec![in out.alloc(); 0; Layout::SIZE + 1]?;
    let buffer = &mut room[..];
    let filled = fill(input, buffer);
    let size = (filled as u64).saturating_add(count_rest(input));
    judge::region(out, &buffer[..filled], size)
}

// A path that is no text of UTF-8 opens nothing.
fn open<R: Files>(rt: &R, path: &[u8]) -> Option<R::File> {
    let path = str::from_utf8(path).ok()?;
    fs::open(rt, path).ok()
}

fn file(rt: &impl Runtime, out: &(impl Print + AllocGlobal), path: &[u8]) -> io::Result<()> {
    print!(out; "== ")?;
    io::writer(out).write_all(path)?;
    println!(out)?;
    match open(rt, path) {
        Some(mut opened) => read(out, &mut opened),
        None => println!(out; "it cannot be opened"),
    }
}

// An argument, if there is one. One that is too long for a path is shown as an empty one.
fn argument<'a>(rt: &impl Env, i: usize, path: &'a mut [u8]) -> Option<&'a [u8]> {
    match rt.arg(i, path) {
        Ok(length) => Some(&path[..length]),
        Err(FillError::TooLong) => Some(&[]),
        Err(FillError::NotPresent) => None,
    }
}

// The arguments behind the program's name. What is said goes to `out`.
pub fn all(rt: &impl Runtime, out: &(impl Print + AllocGlobal)) -> io::Result<()> {
    let mut buffer = [0; PATH_LIMIT];
    if argument(rt, 1, &mut buffer).is_none() {
        return read(out, &mut rt.reader());
    }
    for i in 1..usize::MAX {
        match argument(rt, i, &mut buffer) {
            Some(path) => file(rt, out, path)?,
            None => break,
        }
    }
    Ok(())
}
