// Numbers at the front of bytes, and at their end.
ghost use Rattle.std.specs.Prelude.{◌≡◌, ◌<◌, ◌≤◌, ◌+◌, ◌^◌, ◌++◌};
ghost use Rattle.arrayvec.specs.ArrayVec.{array_vec_len};
ghost use Rattle.tva_base.specs.Versions.{rights_size};
ghost use Rattle.tva_shim.specs.Layout.{two_bytes, six_bytes, eight_bytes, number_bytes};
ghost use Rattle.tva_shim.specs.Parts.{Reads, seen, IsBelow, IsAtMost, one_byte};

use arrayvec::ArrayVec;
use byteorder::{BigEndian, ByteOrder};
use tva_base::rights_size;

// a byte that is at most that
pub(crate) fn read_byte(most: u8, bytes: &[u8]) -> Option<(u8, &[u8])>
    ensures { Reads (IsAtMost most) one_byte bytes.now (seen result) }
{
    match bytes {
        [byte, rest @ ..] if *byte <= most => Some((*byte, rest)),
        _ => None,
    }
}

pub(crate) fn read_two(bytes: &[u8]) -> Option<(u16, &[u8])>
    ensures { Reads (IsBelow (2 ^ 16)) two_bytes bytes.now (seen result) }
{
    if bytes.len() < 2 {
        return None;
    }
    let (front, rest) = bytes.split_at(2);
    Some((BigEndian::read_u16(front), rest))
}

pub(crate) fn read_six(bytes: &[u8]) -> Option<(u64, &[u8])>
    ensures { Reads (IsBelow (2 ^ 48)) six_bytes bytes.now (seen result) }
{
    if bytes.len() < 6 {
        return None;
    }
    let (front, rest) = bytes.split_at(6);
    Some((BigEndian::read_u48(front), rest))
}

pub(crate) fn read_eight(bytes: &[u8]) -> Option<(u64, &[u8])>
    ensures { Reads (IsBelow (2 ^ 64)) eight_bytes bytes.now (seen result) }
{
    if bytes.len() < 8 {
        return None;
    }
    let (front, rest) = bytes.split_at(8);
    Some((BigEndian::read_u64(front), rest))
}

// a number in as many bytes as rights have in the version
pub(crate) fn read_number(version: u8, bytes: &[u8]) -> Option<(u32, &[u8])>
    ensures { Reads (IsBelow (256 ^ rights_size version)) (number_bytes version) bytes.now (seen result) }
{
    let size = rights_size(version) as usize;
    if bytes.len() < size {
        return None;
    }
    let (front, rest) = bytes.split_at(size);
    Some((BigEndian::read_uint(front, size) as u32, rest))
}

#[tactic(auto, unfolding(crate::specs::Layout::two_bytes))]
pub(crate) fn write_two(bytes: &mut ArrayVec<u8, 330>, number: u16)
    requires { array_vec_len bytes.old + 2 ≤ 330 }
    ensures items { bytes.new.items ≡ bytes.old.items ++ two_bytes number }
    ensures len { array_vec_len bytes.new ≡ array_vec_len bytes.old + 2 }
{
    let mut written = [0; 2];
    BigEndian::write_u16(&mut written, number);
    bytes.try_extend_from_slice(&written).unwrap();
}

#[tactic(auto, unfolding(crate::specs::Layout::six_bytes))]
pub(crate) fn write_six(bytes: &mut ArrayVec<u8, 330>, number: u64)
    requires room { array_vec_len bytes.old + 6 ≤ 330 }
    requires fits { number < 2 ^ 48 }
    ensures items { bytes.new.items ≡ bytes.old.items ++ six_bytes number }
    ensures len { array_vec_len bytes.new ≡ array_vec_len bytes.old + 6 }
{
    let mut written = [0; 6];
    BigEndian::write_u48(&mut written, number);
    bytes.try_extend_from_slice(&written).unwrap();
}

#[tactic(auto, unfolding(crate::specs::Layout::eight_bytes))]
pub(crate) fn write_eight(bytes: &mut ArrayVec<u8, 330>, number: u64)
    requires { array_vec_len bytes.old + 8 ≤ 330 }
    ensures items { bytes.new.items ≡ bytes.old.items ++ eight_bytes number }
    ensures len { array_vec_len bytes.new ≡ array_vec_len bytes.old + 8 }
{
    let mut written = [0; 8];
    BigEndian::write_u64(&mut written, number);
    bytes.try_extend_from_slice(&written).unwrap();
}

// a number in as many bytes as rights have in the version
pub(crate) fn write_number(version: u8, bytes: &mut ArrayVec<u8, 330>, number: u32)
    requires room { array_vec_len bytes.old + rights_size version ≤ 330 }
    requires fits { number < 256 ^ rights_size version }
    ensures items { bytes.new.items ≡ bytes.old.items ++ number_bytes version number }
    ensures len { array_vec_len bytes.new ≡ array_vec_len bytes.old + rights_size version }
{
    let size = rights_size(version) as usize;
    let mut written = [0; 4];
    BigEndian::write_uint(&mut written, u64::from(number), size);
    bytes.try_extend_from_slice(&written[..size]).unwrap();
}
