// What the calls are lent: a region, an edit list and an answer record, with places that are written down anew here, so that a wrong
// place in the library is seen.
#![tactic(auto)]

mod edit;
mod region;

pub use edit::{Edit, list};
pub use region::{At, line_fields, number_at, put_number};
use std::alloc::{AllocError, Global};

pub const REGION_SIZE: usize = 49549;

pub const RECORD_SIZE: usize = 128;

// What a call answered: its number, and the places of its record.
#[derive(Clone, Copy, Debug, PartialEq, Eq)]
pub struct Answer {
    pub number: u64,
    pub places: [u64; 16],
}

impl Answer {
    pub fn new(number: u32, record: &[u8; RECORD_SIZE]) -> Answer {
        let mut places = [0; 16];
        for (place, bytes) in places.iter_mut().zip(record.chunks_exact(8)) {
            *place = region::number(bytes);
        }
        Answer {
            number: u64::from(number),
            places,
        }
    }
}

// The region as the calls have left it so far, what the last of them answered, how the region was before the last prepare, and whether
// that changed a byte.
#[derive(Drop)]
pub struct Lent {
    pub region: Vec<u8>,
    pub answer: Answer,
    pub before: Vec<u8>,
    pub is_changed: bool,
}

impl Lent {
    pub fn new(alloc: Global) -> Result<Lent, AllocError> {
        Ok(Lent {
            region: vec![in alloc; 0; REGION_SIZE]?,
            answer: Answer::new(0, &[0; RECORD_SIZE]),
            before: Vec::new(alloc),
            is_changed: false,
        })
    }

    // A name's bytes stand in the region where the last call's record says: at an offset, with a size.
    pub fn holds(&self, name: &[u8]) -> bool {
        let [offset, size, ..] = self.answer.places;
        let rest = self.region.get(offset as usize..).unwrap_or(b"");
        rest.get(..size as usize) == Some(name)
    }
}
