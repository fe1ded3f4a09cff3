//! Frames, to bytes.

ghost use Rattle.std.specs.Prelude.{◌≡◌, ◌≢◌, ℕ, ◌+◌, ◌-◌, ◌*◌, ◌^◌, ◌<◌, ◌≤◌, List, [], ◌++◌, ◌∷◌, length, true, OnOk, OnErr};
ghost use Rattle.fragment_codec.specs.Rules.{IsFragment, IsOpening, count_of};
ghost use Rattle.fragment_codec.specs.declared.frame.Frame.TheVariants.{Log};
ghost use Rattle.fragment_codec.specs.Spelling.{number, input_bytes, stand_bytes, record_bytes, log_body, opening_body, headed, sealed};
ghost use Rattle.std.specs.Int.{w16, w32, w64};
ghost use Rattle.ft_types.specs.Devices.{Writes};
ghost use Rattle.fragment_codec.specs.Streams.{spelling, version_of, Splits};

use crate::frame::{Fragment, Frame, Opening, is_short};
use crate::types::{FIRST_BODY_LIMIT, FIRST_VERSION, FRAME_VERSION, Key, Record, SPAN_LIMIT};
use arrayvec::ArrayVec;
use byteorder::{ByteOrder, LittleEndian};
use ft_types::{Count, Failed, Guest, Sink, write_all};
use input_log::Input;
use sha2::{Digest, Sha256};

type Body = ArrayVec<u8, FIRST_BODY_LIMIT>;

fn put(out: &mut Body, bytes: &[u8])
    requires { length out.old.items + length bytes.now ≤ FIRST_BODY_LIMIT }
    ensures items { out.new.items ≡ out.old.items ++ bytes.now }
    ensures len { length out.new.items ≡ length out.old.items + length bytes.now }
{
    let _fits = out.try_extend_from_slice(bytes);
}

#[tactic(auto, unfolding(crate::specs::Spelling::number))]
fn put_u16(out: &mut Body, value: u16)
    requires { length out.old.items + 2 ≤ FIRST_BODY_LIMIT }
    ensures items { out.new.items ≡ out.old.items ++ number w16 value }
    ensures len { length out.new.items ≡ length out.old.items + 2 }
{
    let mut bytes = [0; 2];
    LittleEndian::write_u16(&mut bytes, value);
    put(out, &bytes);
}

#[tactic(auto, unfolding(crate::specs::Spelling::number))]
fn put_u32(out: &mut Body, value: u32)
    requires { length out.old.items + 4 ≤ FIRST_BODY_LIMIT }
    ensures items { out.new.items ≡ out.old.items ++ number w32 value }
    ensures len { length out.new.items ≡ length out.old.items + 4 }
{
    let mut bytes = [0; 4];
    LittleEndian::write_u32(&mut bytes, value);
    put(out, &bytes);
}

#[tactic(auto, unfolding(crate::specs::Spelling::number))]
fn put_u64(out: &mut Body, value: u64)
    requires { length out.old.items + 8 ≤ FIRST_BODY_LIMIT }
    ensures items { out.new.items ≡ out.old.items ++ number w64 value }
    ensures len { length out.new.items ≡ length out.old.items + 8 }
{
    let mut bytes = [0; 8];
    LittleEndian::write_u64(&mut bytes, value);
    put(out, &bytes);
}

#[tactic(auto, unfolding(crate::specs::Spelling::input_bytes, crate::specs::Spelling::number))]
fn put_input(out: &mut Body, input: Input)
    requires { length out.old.items + 5 ≤ FIRST_BODY_LIMIT }
    ensures items { out.new.items ≡ out.old.items ++ input_bytes input }
    ensures len { length out.new.items ≡ length out.old.items + 5 }
{
    let (kind, value) = match input {
        Input::Timer => (0, 0),
        Input::Word(word) => (1, word),
        Input::Bell(source) => (2, u32::from(source.number())),
    };
    put(out, &[kind]);
    put_u32(out, value);
}

/// Where a record stands, in a fragment that begins at a count.
#[tactic(auto, unfolding(crate::specs::Spelling::stand_bytes))]
fn put_stand(out: &mut Body, version: u8, from: Count, at: Count)
    requires room { length out.old.items + 8 ≤ FIRST_BODY_LIMIT }
    requires after { from ≤ at }
    requires near { version ≢ FIRST_VERSION → at - from < SPAN_LIMIT }
    ensures items { out.new.items ≡ out.old.items ++ stand_bytes version from at }
    ensures len { length out.new.items ≤ length out.old.items + 8 }
{
    if version == FIRST_VERSION {
        put_u64(out, at);
    } else {
        put_u32(out, (at - from) as u32);
    }
}

#[tactic(auto, unfolding(crate::specs::Spelling::record_bytes, crate::specs::Spelling::number))]
fn put_record(out: &mut Body, version: u8, from: Count, record: &Record)
    requires room { length out.old.items + 18 ≤ FIRST_BODY_LIMIT }
    requires after { from ≤ count_of record.now }
    requires near { version ≢ FIRST_VERSION → count_of record.now - from < SPAN_LIMIT }
    ensures items { out.new.items ≡ out.old.items ++ record_bytes version from record.now }
    ensures len { length out.new.items ≤ length out.old.items + 18 }
{
    match record {
        Record::Edge(edge) => {
            put(out, &[1]);
            put_stand(out, version, from, edge.at);
            put(out, &[edge.other.number()]);
            put_u64(out, edge.after);
        }
        Record::Input(at, input) => {
            put(out, &[2]);
            put_stand(out, version, from, *at);
            put_input(out, *input);
        }
        Record::Note(at, number) => {
            put(out, &[3]);
            put_stand(out, version, from, *at);
            put_u64(out, *number);
        }
    }
}

#[tactic(auto, unfolding(crate::specs::Spelling::number))]
fn put_place(out: &mut Body, guest: &Guest, key: &Key)
    requires { length out.old.items + 42 ≤ FIRST_BODY_LIMIT }
    ensures items { out.new.items ≡ out.old.items ++ (guest.now.digest ++ (guest.now.harts ∷ key.now.hart ∷ (number w32 key.now.term ++
        number w32 key.now.place))) }
    ensures len { length out.new.items ≡ length out.old.items + 42 }
{
    put(out, &guest.digest());
    put(out, &[guest.harts(), key.hart.number()]);
    put_u32(out, key.term);
    put_u32(out, key.place);
}

#[tactic(auto, unfolding(crate::specs::Spelling::log_body, crate::specs::Spelling::number))]
fn put_log(out: &mut Body, version: u8, fragment: &Fragment)
    requires empty { out.old.items ≡ [] }
    requires short { version ≢ FIRST_VERSION → fragment.now.to - fragment.now.from < SPAN_LIMIT }
    ensures text { out.new.items ≡ log_body version fragment.now }
    ensures rules { IsFragment fragment.now }
{
    let from = fragment.from();
    let records = fragment.records();
    put_place(out, &fragment.guest(), &fragment.key());
    put_u64(out, from);
    put_u64(out, fragment.to());
    put_u16(out, records.len() as u16);
    for record in records {
        put_record(out, version, from, record);
    }
}

#[tactic(auto, unfolding(crate::specs::Spelling::opening_body, crate::specs::Spelling::number))]
fn put_opening(out: &mut Body, opening: &Opening)
    requires empty { out.old.items ≡ [] }
    ensures text { out.new.items ≡ opening_body opening.now }
    ensures rules { IsOpening opening.now }
{
    let base = opening.base();
    let guest = opening.guest();
    put(out, &guest.digest());
    put(out, &[guest.harts()]);
    put_u32(out, opening.term());
    put_u32(out, opening.parent());
    for count in base.as_slice() {
        put_u64(out, *count);
    }
}

#[tactic(auto, unfolding(crate::specs::Spelling::headed, crate::specs::Spelling::number))]
fn head_of_body(version: u8, kind: u8, len: u32) -> [u8; 8]
    ensures { (body : List ℕ) → length body ≡ len → result ++ body ≡ headed version kind body }
{
    let mut head = [0x56, 0x46, version, kind, 0, 0, 0, 0];
    LittleEndian::write_u32(&mut head[4..], len);
    head
}

fn write_sealed<W: Sink>(sink: &mut W, version: u8, kind: u8, body: &[u8]) -> Result<(), Failed>
    requires { length body.now < 2 ^ 32 }
    ensures { Writes result (W.bytes sink.old) (W.bytes sink.new) (W.failures sink.old) (W.failures sink.new) (sealed (headed version kind body.now)) }
{
    let head = head_of_body(version, kind, body.len() as u32);
    let mut hasher = Sha256::new();
    hasher.update(head.as_slice());
    hasher.update(body);
    let digest = hasher.finalize();
    write_all(sink, &head)?;
    write_all(sink, body)?;
    write_all(sink, &digest)
}

/// The version in which a fragment is written.
fn version_to_write(fragment: &Fragment) -> u8
    ensures version { result ≡ version_of (Log fragment.now) }
    ensures short { result ≢ FIRST_VERSION → fragment.now.to - fragment.now.from < SPAN_LIMIT }
{
    if is_short(fragment.from(), fragment.to()) {
        FRAME_VERSION
    } else {
        FIRST_VERSION
    }
}

/// Writes the frame in the second version, or in the first where it has no spelling in that; or a beginning of it where the
/// writer fails.
pub fn write_frame<W: Sink>(frame: &Frame, sink: &mut W) -> Result<(), Failed>
    ensures written { Writes result (W.bytes sink.old) (W.bytes sink.new) (W.failures sink.old) (W.failures sink.new) (spelling frame.now) }

    // What is written is read again as this frame, and nothing is left.
    ensures read_again { Splits (spelling frame.now) (frame.now ∷ []) [] }
{
    let mut body = Body::new();
    match frame {
        Frame::Log(fragment) => {
            let version = version_to_write(fragment);
            put_log(&mut body, version, fragment);
            write_sealed(sink, version, 1, &body)
        }
        Frame::Opening(opening) => {
            put_opening(&mut body, opening);
            write_sealed(sink, FRAME_VERSION, 2, &body)
        }
    }
}
