// The header of a file: its numbers, its layout and its rules (refusals 1 to 9).
#![tactic(auto)]

ghost use Rattle.std.specs.Prelude.{◌≡◌, true};
ghost use Rattle.byte_string.specs.Order.{begins};
ghost use Rattle.outcome.specs.Fault.{said_at};
ghost use Rattle.header.specs.Header as header;
ghost use Rattle.header.specs.Metadata.{is_metadata};
ghost use Rattle.header.specs.MetadataPart.{metadata_part};

use framing::crc_right;
use outcome::Fault;
use part::Part;

// The numbers of a header. The hash, the codec and the metadata are read at their offsets.
#[derive(Clone, Copy)]
pub struct Header {
    // Where the blocks begin: 24 + H.
    pub blocks: usize,
    // The offset of the root block.
    pub root: u64,
    // The full size of the root block.
    pub rootsize: u64,
    // The length of the metadata (M).
    pub metadata: u64,
}

impl Header {
    // The longest file, in bytes.
    pub const MAX_FILE: usize = 1073741824;
    // Offsets of the fields.
    pub const EXTENT_AT: usize = 8;

    pub const DATA_AT: usize = 16;

    pub const ROOT_AT: usize = 16;

    pub const ROOT_SIZE_AT: usize = 24;

    pub const TOTAL_AT: usize = 32;

    pub const HASH_AT: usize = 40;

    pub const CODEC_AT: usize = 72;

    pub const METADATA_LENGTH_AT: usize = 88;

    pub const METADATA_AT: usize = 96;
    // The least length of the header data: the fields from 16 to 96.
    pub const LEAST_EXTENT: u64 = 80;
    // What a file has beside its header data before the first block: magic, length and CRC.
    pub const AROUND: usize = 24;
    // Where the blocks begin at the earliest: AROUND and LEAST_EXTENT.
    pub const LEAST_BLOCKS: usize = 104;

    // The header of a file, or the first of the refusals 1 to 9.
    #[tactic(auto, unfolding(outcome::specs::Fault::said_at, outcome::specs::Fault::number), using(crate::proofs::RuleLaws::read_rules))]
    pub fn read(file: &[u8]) -> Result<Header, Fault>
        ensures { said_at 0 result ≡ header.header_of file.now }
    {
        if Header::MAX_FILE < file.len() {
            return Err(Fault::FileTooLong);
        }
        if is_unfinished(file) {
            return Err(Fault::Unfinished);
        }
        if !has_magic(file) {
            return Err(Fault::Magic);
        }
        if !holds_header(file) {
            return Err(Fault::HeaderCutOff);
        }
        data(file)
    }
}

// The number of 8 bytes at an offset.
#[tactic(auto, unfolding(crate::specs::Header::field_at, part::specs::Part::part))]
fn field(file: &[u8], at: usize) -> u64
    ensures { result ≡ header.field_at file.now at }
{
    endian::le64_at(file, at)
}

// H, the length of the header data.
#[tactic(auto, unfolding(crate::specs::Header::H))]
fn extent(file: &[u8]) -> u64
    ensures { result ≡ header.H file.now }
{
    field(file, Header::EXTENT_AT)
}

// M, the length of the metadata.
#[tactic(auto, unfolding(crate::specs::Header::M))]
fn metadata_length(file: &[u8]) -> u64
    ensures { result ≡ header.M file.now }
{
    field(file, Header::METADATA_LENGTH_AT)
}

// Whether the file begins with the magic of an unfinished one.
fn is_unfinished(file: &[u8]) -> bool
    ensures { result ≡ begins header.unfinished_magic file.now }
{
    file.starts_with(b"\xabZStoBe\x01")
}

// Whether the file begins with the magic of a finished one.
pub fn has_magic(file: &[u8]) -> bool
    ensures { result ≡ begins header.magic file.now }
{
    file.starts_with(b"\xabZSfiLe\x01")
}

// Whether the header data and their CRC lie within the file.
#[tactic(auto, using(crate::proofs::RuleLaws::header_rules))]
pub fn holds_header(file: &[u8]) -> bool
    ensures { result ≡ header.holds_header file.now }
{
    Header::AROUND <= file.len() && extent(file) <= (file.len() - Header::AROUND) as u64
}

// The header, or the first of the refusals 5 to 9, which look at the header data.
#[tactic(auto, unfolding(outcome::specs::Fault::said_at, outcome::specs::Fault::number), using(crate::proofs::RuleLaws::data_rules))]
fn data(file: &[u8]) -> Result<Header, Fault>
    requires { header.holds_header file.now ≡ true }
    ensures { said_at 0 result ≡ header.data_of file.now }
{
    let end = Header::DATA_AT + extent(file) as usize;
    if !crc_right(file, Header::DATA_AT, end) {
        return Err(Fault::HeaderCrc);
    }
    if !holds_metadata(file) {
        return Err(Fault::HeaderLengths);
    }
    fields(file)
}

// Whether the header data hold every field and the metadata.
#[tactic(auto, using(crate::proofs::RuleLaws::room_rules))]
fn holds_metadata(file: &[u8]) -> bool
    ensures { result ≡ header.holds_metadata file.now }
{
    let extent = extent(file);
    Header::LEAST_EXTENT <= extent && metadata_length(file) <= extent - Header::LEAST_EXTENT
}

// The metadata rule: the first byte `{`, the last `}`, UTF-8, and one JSON object.
#[tactic(auto, unfolding(crate::specs::Metadata::is_metadata))]
pub fn is_metadata(bytes: &[u8]) -> bool
    ensures { result ≡ is_metadata bytes.now }
{
    bytes.starts_with(b"{")
        && bytes.ends_with(b"}")
        && utf8::is_utf8(bytes)
        && json_text::is_object(bytes)
}

// Whether the rest of the file from the codec on begins with the codec `none`.
fn has_codec(rest: &[u8]) -> bool
    ensures { result ≡ begins header.codec_none rest.now }
{
    rest.starts_with(b"none\0\0\0\0\0\0\0\0\0\0\0\0")
}

// The header, or the first of the refusals 7 to 9.
#[tactic(auto, unfolding(outcome::specs::Fault::said_at, outcome::specs::Fault::number), using(crate::proofs::RuleLaws::field_rules))]
fn fields(file: &[u8]) -> Result<Header, Fault>
    requires { (header.holds_header file.now ≡ true) × (header.holds_metadata file.now ≡ true) }
    ensures { said_at 0 result ≡ header.fields_of file.now }
{
    if !has_codec(&file[Header::CODEC_AT..]) {
        return Err(Fault::Codec);
    }
    if field(file, Header::TOTAL_AT) != file.len() as u64 {
        return Err(Fault::FileLength);
    }
    let metadata = metadata_length(file);
    let text = Part {
        offset: Header::METADATA_AT,
        length: metadata as usize,
    };
    if !is_metadata(text.of(file)) {
        return Err(Fault::Metadata);
    }
    let blocks = Header::AROUND + extent(file) as usize;
    Ok(Header {
        blocks,
        root: field(file, Header::ROOT_AT),
        rootsize: field(file, Header::ROOT_SIZE_AT),
        metadata,
    })
}

// Where the metadata lie: M bytes from 96 on where the header is sound, else no bytes at 0.
#[tactic(auto, unfolding(outcome::specs::Fault::said_at, crate::specs::MetadataPart::metadata_in, crate::specs::MetadataPart::metadata_part))]
pub fn metadata(file: &[u8]) -> Part
    ensures { result ≡ metadata_part file.now }
{
    match Header::read(file) {
        Ok(header) => Part {
            offset: Header::METADATA_AT,
            length: header.metadata as usize,
        },
        Err(_) => Part::NONE,
    }
}
