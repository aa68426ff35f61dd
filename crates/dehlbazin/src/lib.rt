// The calls that a foreign program links, by the crate dehlbazin_c. Each tests the answer record's size, makes the call and fills the record; its contract
// fixes the number, every byte of the record and every byte of what is lent, the region first.
#![tactic(auto)]

ghost use Rattle.std.specs.Prelude.{[], ◌∷◌};
ghost use Rattle.model.specs.Reply.Call.{start, add_name, name_bytes, load_loose, load_packed, place_lock, lift_lock};
ghost use Rattle.model.specs.Reply.Call.{prepare, commit, rollback, read_name, read_line, read_row, read_packed};
ghost use Rattle.settings.specs.Lent.{settings_given, committers_given};
ghost use Rattle.calls.specs.Call.{call, start_call, close_call, write_call, Did};
ghost use Rattle.records.specs.Record.{record_call};
ghost use Rattle.records.specs.Record.RecordCall.{read_settings, read_committer, write_settings};
ghost use Rattle.receiving.specs.Fragments.{receiver_call};
ghost use Rattle.receiving.specs.Fragments.ReceiverCall.{fresh_receiver, take_fragment};

use answers::Answer;

// Makes an empty store, whatever the region held.
pub fn dehlbazin_start(region: &mut [u8], setting: u64, answer: &mut [u8]) -> u32
    ensures { Did (call (start setting) region.old answer.old) result answer.new (region.new ∷ []) }
{
    if answer.len() != Answer::SIZE {
        return Answer::BAD_REGION;
    }
    answers::finish(answer, calls::start_with(region, setting))
}

// The same with the log setting of a settings record, of version 1 or 2.
pub fn dehlbazin_start_with_settings(region: &mut [u8], bytes: &[u8], answer: &mut [u8]) -> u32
    ensures { Did (start_call bytes.now region.old answer.old) result answer.new (region.new ∷ []) }
{
    if answer.len() != Answer::SIZE {
        return Answer::BAD_REGION;
    }
    answers::finish(answer, calls::start_with_settings(region, bytes))
}

// Adds a name, or finds it: its number.
pub fn dehlbazin_add_name(region: &mut [u8], name: &[u8], answer: &mut [u8]) -> u32
    ensures { Did (call (add_name name.now) region.old answer.old) result answer.new (region.new ∷ []) }
{
    if answer.len() != Answer::SIZE {
        return Answer::BAD_REGION;
    }
    answers::finish(answer, naming::add_name(region, name))
}

// Where the bytes of a name stand in the region: offset and length.
pub fn dehlbazin_name_bytes(region: &[u8], name: u64, answer: &mut [u8]) -> u32
    ensures { Did (call (name_bytes name) region.now answer.old) result answer.new (region.now ∷ []) }
{
    if answer.len() != Answer::SIZE {
        return Answer::BAD_REGION;
    }
    answers::finish(answer, naming::name_bytes(region, name))
}

// Sets the loose value of a name.
pub fn dehlbazin_load_loose(
    region: &mut [u8],
    name: u64,
    kind: u64,
    number: u64,
    answer: &mut [u8],
) -> u32
    ensures { Did (call (load_loose name kind number) region.old answer.old) result answer.new (region.new ∷ []) }
{
    if answer.len() != Answer::SIZE {
        return Answer::BAD_REGION;
    }
    answers::finish(answer, loads::load_loose(region, name, kind, number))
}

// Sets the packed value of a name.
pub fn dehlbazin_load_packed(
    region: &mut [u8],
    name: u64,
    kind: u64,
    number: u64,
    answer: &mut [u8],
) -> u32
    ensures { Did (call (load_packed name kind number) region.old answer.old) result answer.new (region.new ∷ []) }
{
    if answer.len() != Answer::SIZE {
        return Answer::BAD_REGION;
    }
    answers::finish(answer, loads::load_packed(region, name, kind, number))
}

// Places a foreign lock on a name, kind 0, or on the packed table, kind 1, beside which the number is not looked at.
pub fn dehlbazin_place_lock(region: &mut [u8], kind: u64, number: u64, answer: &mut [u8]) -> u32
    ensures { Did (call (place_lock kind number) region.old answer.old) result answer.new (region.new ∷ []) }
{
    if answer.len() != Answer::SIZE {
        return Answer::BAD_REGION;
    }
    answers::finish(answer, locks::place_lock(region, kind, number))
}

// Lifts it.
pub fn dehlbazin_lift_lock(region: &mut [u8], kind: u64, number: u64, answer: &mut [u8]) -> u32
    ensures { Did (call (lift_lock kind number) region.old answer.old) result answer.new (region.new ∷ []) }
{
    if answer.len() != Answer::SIZE {
        return Answer::BAD_REGION;
    }
    answers::finish(answer, locks::lift_lock(region, kind, number))
}

// Judges a list of edits and takes their locks: how many rows the transaction has.
pub fn dehlbazin_prepare(region: &mut [u8], list: &[u8], mode: u64, answer: &mut [u8]) -> u32
    ensures { Did (call (prepare list.now mode) region.old answer.old) result answer.new (region.new ∷ []) }
{
    if answer.len() != Answer::SIZE {
        return Answer::BAD_REGION;
    }
    answers::finish(answer, preparing::prepare(region, list, mode))
}

// Makes the writes of the prepared transaction in their order, as many as the allowance lets it: how many it made.
pub fn dehlbazin_commit(region: &mut [u8], committer: u64, allowance: u64, answer: &mut [u8]) -> u32
    ensures { Did (call (commit committer allowance) region.old answer.old) result answer.new (region.new ∷ []) }
{
    if answer.len() != Answer::SIZE {
        return Answer::BAD_REGION;
    }
    answers::finish(answer, committing::commit(region, committer, allowance))
}

// Forgets the prepared transaction and frees its locks: how many rows it had.
pub fn dehlbazin_rollback(region: &mut [u8], answer: &mut [u8]) -> u32
    ensures { Did (call rollback region.old answer.old) result answer.new (region.new ∷ []) }
{
    if answer.len() != Answer::SIZE {
        return Answer::BAD_REGION;
    }
    answers::finish(answer, calls::roll_back(region))
}

// What a name reads, and where that is found.
pub fn dehlbazin_read_name(region: &[u8], name: u64, answer: &mut [u8]) -> u32
    ensures { Did (call (read_name name) region.now answer.old) result answer.new (region.now ∷ []) }
{
    if answer.len() != Answer::SIZE {
        return Answer::BAD_REGION;
    }
    answers::finish(answer, reads::read_name(region, name))
}

// A line of a name's log, by its place among them.
pub fn dehlbazin_read_line(region: &[u8], name: u64, place: u64, answer: &mut [u8]) -> u32
    ensures { Did (call (read_line name place) region.now answer.old) result answer.new (region.now ∷ []) }
{
    if answer.len() != Answer::SIZE {
        return Answer::BAD_REGION;
    }
    answers::finish(answer, reads::read_line(region, name, place))
}

// A row of the prepared transaction, and where its existing value was found.
pub fn dehlbazin_read_row(region: &[u8], place: u64, answer: &mut [u8]) -> u32
    ensures { Did (call (read_row place) region.now answer.old) result answer.new (region.now ∷ []) }
{
    if answer.len() != Answer::SIZE {
        return Answer::BAD_REGION;
    }
    answers::finish(answer, reads::read_row(region, place))
}

// ---- the packed table as text

// Writes it at the beginning of a buffer: how long it is.
pub fn dehlbazin_write_packed(region: &[u8], buffer: &mut [u8], answer: &mut [u8]) -> u32
    ensures { Did (write_call region.now buffer.old answer.old) result answer.new (region.now ∷ buffer.new ∷ []) }
{
    if answer.len() != Answer::SIZE {
        return Answer::BAD_REGION;
    }
    answers::finish(answer, packing::write_packed(region, buffer))
}

// Puts what a text says in the place of all packed values: how many refs it has.
pub fn dehlbazin_read_packed(region: &mut [u8], text: &[u8], answer: &mut [u8]) -> u32
    ensures { Did (call (read_packed text.now) region.old answer.old) result answer.new (region.new ∷ []) }
{
    if answer.len() != Answer::SIZE {
        return Answer::BAD_REGION;
    }
    answers::finish(answer, packing::read_packed(region, text))
}

// ---- settings records, with no region

// What a settings record says, to a reader that knows versions up to the one given: log setting, usual mode, site, how many committers.
pub fn dehlbazin_read_settings(bytes: &[u8], known: u64, answer: &mut [u8]) -> u32
    ensures { Did (record_call (read_settings known) bytes.now answer.old) result answer.new (bytes.now ∷ []) }
{
    if answer.len() != Answer::SIZE {
        return Answer::BAD_REGION;
    }
    answers::finish(answer, records::read_settings(bytes, known))
}

// A committer of it by place: its number, and where its name stands in the record.
pub fn dehlbazin_read_committer(bytes: &[u8], known: u64, place: u64, answer: &mut [u8]) -> u32
    ensures { Did (record_call (read_committer known place) bytes.now answer.old) result answer.new (bytes.now ∷ []) }
{
    if answer.len() != Answer::SIZE {
        return Answer::BAD_REGION;
    }
    answers::finish(answer, records::read_committer(bytes, known, place))
}

// Writes a settings record at the beginning of a buffer: its length.
pub fn dehlbazin_write_settings(
    buffer: &mut [u8],
    version: u64,
    log: u64,
    mode: u64,
    site: u64,
    numbers: &[u64],
    lengths: &[u64],
    names: &[u8],
    answer: &mut [u8],
) -> u32
    ensures { Did (record_call (write_settings version (settings_given log mode site (committers_given numbers.now lengths.now names.now))) buffer.old answer.old) result answer.new (buffer.new ∷ []) }
{
    if answer.len() != Answer::SIZE {
        return Answer::BAD_REGION;
    }
    answers::finish(
        answer,
        records::write_settings(buffer, version, log, mode, site, numbers, lengths, names),
    )
}

// ---- a list of edits in fragments: a receiver collects them, with no region, and closing gives them to prepare

// Makes a receiver that holds nothing, whatever its bytes were.
pub fn dehlbazin_fresh_receiver(receiver: &mut [u8], answer: &mut [u8]) -> u32
    ensures { Did (receiver_call fresh_receiver receiver.old answer.old) result answer.new (receiver.new ∷ []) }
{
    if answer.len() != Answer::SIZE {
        return Answer::BAD_REGION;
    }
    answers::finish(answer, receiving::fresh_receiver(receiver))
}

// Takes a fragment of any length: how many bytes are held now.
pub fn dehlbazin_take_fragment(receiver: &mut [u8], fragment: &[u8], answer: &mut [u8]) -> u32
    ensures { Did (receiver_call (take_fragment fragment.now) receiver.old answer.old) result answer.new (receiver.new ∷ []) }
{
    if answer.len() != Answer::SIZE {
        return Answer::BAD_REGION;
    }
    answers::finish(answer, receiving::take_fragment(receiver, fragment))
}

// Prepares what a receiver holds, as prepare does, and leaves a fresh one.
pub fn dehlbazin_close_receiver(
    region: &mut [u8],
    receiver: &mut [u8],
    mode: u64,
    answer: &mut [u8],
) -> u32
    ensures { Did (close_call mode region.old receiver.old answer.old) result answer.new (region.new ∷ receiver.new ∷ []) }
{
    if answer.len() != Answer::SIZE {
        return Answer::BAD_REGION;
    }
    answers::finish(answer, receiving::close_receiver(region, receiver, mode))
}
