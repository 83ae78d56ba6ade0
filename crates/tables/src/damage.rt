// A line of input, and the damage that it does to a table's bytes.
use crate::stop::Stop;
use std::num::ParseIntError;
use std::str::FromStr;

const BLOCK_BYTES: usize = 512;

const SUMMED_BYTES: usize = 508;

// A line of input, its words not yet read.
#[derive(Clone, Copy)]
pub struct Case<'a> {
    pub rows: &'a str,
    pub patches: &'a str,
    pub mend: bool,
}

impl<'a> TryFrom<&'a str> for Case<'a> {
    type Error = Stop;

    fn try_from(line: &'a str) -> Result<Case<'a>, Stop> {
        let mut parts = line.split('|');
        let (Some(rows), Some(patches), Some(mend)) = (parts.next(), parts.next(), parts.next())
        else {
            return Err(Stop::Line);
        };
        Ok(Case {
            rows,
            patches,
            mend: mend.trim() == "+",
        })
    }
}

// The numbers of a word that has two, with this sign between.
pub fn two_numbers<A, B>(word: &str, sign: char) -> Result<(A, B), Stop>
where
    A: FromStr<Err = ParseIntError> + Drop,
    B: FromStr<Err = ParseIntError> + Drop,
{
    let mut parts = word.split(sign);
    let (Some(first), Some(second), None) = (parts.next(), parts.next(), parts.next()) else {
        return Err(Stop::Line);
    };
    Ok((first.parse()?, second.parse()?))
}

// Both sums of a block, from the bytes before them: the bytes as they are, and each times its
// distance from the sums. This is not the table's own way, so that neither can hide a slip of the other.
fn sums(body: &[u8]) -> [u8; 4] {
    let mut plain: u16 = 0;
    let mut weighed: u16 = 0;
    for (byte, distance) in body.iter().zip((1..=SUMMED_BYTES as u16).rev()) {
        let value = u16::from(*byte);
        plain = plain.wrapping_add(value);
        weighed = weighed.wrapping_add(value.wrapping_mul(distance));
    }
    let [a, b] = plain.to_le_bytes();
    let [c, d] = weighed.to_le_bytes();
    [a, b, c, d]
}

// Makes the sums of the block around a place right again.
fn mend(bytes: &mut [u8], offset: usize) {
    if let Some(block) = bytes
        .chunks_exact_mut(BLOCK_BYTES)
        .nth(offset / BLOCK_BYTES)
    {
        let (body, tail) = block.split_at_mut(SUMMED_BYTES);
        tail.copy_from_slice(&sums(body));
    }
}

// Writes the patches of a case over a table's bytes. One past their end does nothing.
pub fn damage(bytes: &mut [u8], case: Case<'_>) -> Result<(), Stop> {
    for patch in case.patches.split_whitespace() {
        let (offset, value) = two_numbers::<usize, u8>(patch, '=')?;
        if offset < bytes.len() {
            bytes[offset] = value;
            if case.mend {
                mend(bytes, offset);
            }
        }
    }
    Ok(())
}
