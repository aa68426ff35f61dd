// One call each, on an answer record of its own, and the line that says what it answered.
use answers::Answer;
use region::Layout;
use reply::Reply;
use settings::Record;
use std::fmt::Display;
use std::io;

// What a record is written from, beside log setting 1 and usual mode 2: a site, and its committers with their names one behind the other.
#[derive(Clone, Copy, Debug)]
pub struct Settings<'a> {
    pub version: u64,
    pub site: u64,
    pub numbers: &'a [u64],
    pub lengths: &'a [u64],
    pub names: &'a [u8],
}

// The number, and the first four places.
fn tell(rt: &impl Print, what: impl Display + Drop, reply: &Reply) -> io::Result<()> {
    println!(rt;
        "{what}: {}, {} {} {} {}",
        reply.number,
        reply.place(0),
        reply.place(1),
        reply.place(2),
        reply.place(3)
    )
}

pub fn read(
    rt: &impl Print,
    what: impl Display + Drop,
    record: &[u8],
    known: u64,
) -> io::Result<()> {
    let reply = Reply::of(|answer| dehlbazin::dehlbazin_read_settings(record, known, answer));
    tell(rt, what, &reply)
}

pub fn committer(
    rt: &impl Print,
    what: impl Display + Drop,
    record: &[u8],
    place: u64,
) -> io::Result<()> {
    let reply = Reply::of(|answer| {
        dehlbazin::dehlbazin_read_committer(record, Record::VERSION_2, place, answer)
    });
    tell(rt, what, &reply)
}

pub fn write(
    rt: &impl Print,
    what: impl Display + Drop,
    buffer: &mut [u8],
    from: &Settings,
) -> io::Result<()> {
    let reply = Reply::of(|answer| {
        dehlbazin::dehlbazin_write_settings(
            buffer,
            from.version,
            1,
            2,
            from.site,
            from.numbers,
            from.lengths,
            from.names,
            answer,
        )
    });
    tell(rt, what, &reply)
}

// A region is started with the record. Its log setting stands in byte 5.
pub fn start(
    rt: &(impl Print + AllocGlobal),
    what: impl Display + Drop,
    record: &[u8],
) -> io::Result<()> {
    let mut store = vec![in rt.alloc(); 0; Layout::SIZE]?;
    let region = &mut store[..];
    let reply = Reply::of(|answer| {
        dehlbazin::dehlbazin_start_with_settings(region, record, answer)
    });
    tell(rt, what, &reply)?;
    println!(rt; "its log setting is {}", region[Layout::SETTING_AT])
}

// A damaged record that is still read, with the place that was changed, and by how much.
pub fn still(rt: &impl Print, i: usize, by: u8, record: &[u8]) -> io::Result<()> {
    let reply = Reply::of(|answer| {
        dehlbazin::dehlbazin_read_settings(record, Record::VERSION_2, answer)
    });
    if reply.number == Answer::DONE {
        tell(rt, format_args!("byte {i} and {by}"), &reply)?;
    }
    Ok(())
}
