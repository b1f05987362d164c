//! Tests of what `inspect` writes for headers, line by line.

use super::support::{TWO_EQUAL_FILE, inspected};
use crate::tests::checks::same;
use std::test::Fail;

/// The file of one sample of 200, by the block-adaptive coder.
const ONE_BLOCK: [u8; 26] = [
    0x00, 0x00, 0x01, 0x00, 0x01, 0x00, 0x01, 0x11, 0x00, 0x00, 0x0C, 0x00, 0x02, 0xA0, 0x92, 0x59,
    0x00, 0x00, 0x01, // the header
    0xA0, 0x0F, 0xF0, 0x00, 0x00, 0x00, 0x00,
];

/// The header of cube A, two bands of two rows and three columns, interleaved with a depth of 2.
const TWO_BANDS_BY_PIXEL: [u8; 19] = [
    0x00, 0x00, 0x03, 0x00, 0x02, 0x00, 0x02, 0x10, 0x00, 0x02, 0x08, 0x00, 0x04, 0x20, 0x92, 0x59,
    0x00, 0x82, 0x26,
];

#[test]
fn header_of_two_equal_samples(rt: HostRuntime) -> Result<(), Fail> {
    let text = inspected(rt.alloc(), &TWO_EQUAL_FILE)?;
    let lines =
        "user 0\ncolumns 1\nrows 2\nbands 1\nsample unsigned\nbits 8\norder bsq\nword 1\ncoder sample\nprevious 0\nmode reduced\nsums column\nregister 32\nomega 13\ninterval 64\nvmin -1\nvmax 3\nstart usual\numax 16\ngamma-star 6\ngamma-zero 1\nk 3\nheader 19\n";
    same(&rt, text.as_slice(), lines.as_bytes());
    Ok(())
}

#[test]
fn header_of_the_block_coder(rt: HostRuntime) -> Result<(), Fail> {
    let text = inspected(rt.alloc(), &ONE_BLOCK)?;
    let lines =
        "user 0\ncolumns 1\nrows 1\nbands 1\nsample unsigned\nbits 8\norder bsq\nword 1\ncoder block\nprevious 0\nmode reduced\nsums column\nregister 32\nomega 13\ninterval 64\nvmin -1\nvmax 3\nstart usual\nblock 8\nrestricted no\nreference 1\nheader 19\n";
    same(&rt, text.as_slice(), lines.as_bytes());
    Ok(())
}

#[test]
fn header_of_an_interleaved_image(rt: HostRuntime) -> Result<(), Fail> {
    let text = inspected(rt.alloc(), &TWO_BANDS_BY_PIXEL)?;
    let lines =
        "user 0\ncolumns 3\nrows 2\nbands 2\nsample unsigned\nbits 8\norder bi 2\nword 1\ncoder sample\nprevious 1\nmode full\nsums neighbour\nregister 32\nomega 13\ninterval 64\nvmin -1\nvmax 3\nstart usual\numax 16\ngamma-star 6\ngamma-zero 1\nk 3\nheader 19\n";
    same(&rt, text.as_slice(), lines.as_bytes());
    Ok(())
}
