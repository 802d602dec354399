// Reading the parts of a case from a reader.
ghost use Rattle.std.specs.Prelude.{◌≡◌, length};
ghost use Rattle.std.specs.Counts.{IsPrefixLen};

use std::io::Read;

// The bytes that there is room for in a file, or in what a call writes.
pub const FILE_BYTES: usize = 131072;

// The bytes that there is room for in a list, of images, orders or answers.
pub const LIST_BYTES: usize = 65536;

// The counts that there is room for in a marking; wrong ones of twice 4,096 counts and one more have room in it.
pub const MARKING_COUNTS: usize = 16384;

// A buffer for a file, or for what a call writes.
pub fn file_buffer() -> [u8; FILE_BYTES]
    ensures { 131072 ≡ length result }
{
    [0; FILE_BYTES]
}

// A buffer for a list, of images, orders or answers.
pub fn list_buffer() -> [u8; LIST_BYTES]
    ensures { 65536 ≡ length result }
{
    [0; LIST_BYTES]
}

// A buffer for a marking.
pub fn marking_buffer() -> [u16; MARKING_COUNTS]
    ensures { 16384 ≡ length result }
{
    [0; MARKING_COUNTS]
}

// Reads until buf is full, the input ends or a read fails, and answers how many bytes there are at the start of buf.
fn read_full<R: Read>(from: &mut R, buf: &mut [u8]) -> usize
    ensures { IsPrefixLen result buf.new }
{
    // No method of the library tells how many bytes came before a failed read.
    let mut done = 0;
    while done < buf.len() {
        match from.read(&mut buf[done..]) {
            Ok(0) => break,
            Ok(more) => done += more,
            Err(_) => break,
        }
    }
    done
}

// The number of the next call; none at the input's end, or where it is 0.
pub fn read_call<R: Read>(from: &mut R) -> Option<u8> {
    let mut buf = [0u8; 1];
    let got = read_full(from, &mut buf);
    (got > 0 && buf[0] > 0).then_some(buf[0])
}

// A number of four bytes; those that are not there are 0.
fn read_long<R: Read>(from: &mut R) -> u32 {
    let mut buf = [0u8; 4];
    read_full(from, &mut buf);
    u32::from_le_bytes(buf)
}

// Reads a buffer of bytes, with its length in front, to the start of buf, and gives it where it stands; none of it where buf is too short.
pub fn read_bytes<'a, R: Read>(from: &mut R, buf: &'a mut [u8]) -> &'a mut [u8]
    ensures place { result.ref_ptr ≡ buf.entry.ref_ptr }
    ensures count { IsPrefixLen (length result.now) buf.old }
{
    let length = read_long(from) as usize;
    let n = if length > buf.len() {
        0
    } else {
        read_full(from, &mut buf[..length])
    };
    &mut buf[..n]
}

// Reads a buffer of counts, two bytes each, to the start of marking, and gives them where they stand.
pub fn read_counts<'a, R: Read>(from: &mut R, marking: &'a mut [u16]) -> &'a mut [u16]
    ensures place { result.ref_ptr ≡ marking.entry.ref_ptr }
    ensures count { IsPrefixLen (length result.now) marking.old }
{
    let mut list = list_buffer();
    let n = spread(read_bytes(from, &mut list), marking);
    &mut marking[..n]
}

// A row number, in a buffer of four bytes.
pub fn read_row<R: Read>(from: &mut R) -> u32 {
    read_long(from);
    read_long(from)
}

// Puts the counts that bytes hold at the start of marking, as many as there is space for.
fn spread(bytes: &[u8], marking: &mut [u16]) -> usize
    ensures { IsPrefixLen result marking.new }
{
    let n = marking.len().min(bytes.len() / 2);
    for i in 0..n {
        marking[i] = u16::from_le_bytes([bytes[2 * i], bytes[2 * i + 1]]);
    }
    n
}
