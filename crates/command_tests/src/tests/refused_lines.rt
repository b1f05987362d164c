//! Tests of command lines that are refused as `Usage`.

use super::lines::{image_with, parsed};
use crate::tests::checks::same;
use cube_core::fault::Fault;
use std::alloc::Global;
use std::process::Abort;

/// Options, each with a value that it doesn't accept.
const VALUES: &str = "--depth 0
--depth 65537
--order bi --depth 0
--order bil
--user 256
--user -1
--word 0
--word 9
--previous 16
--register 31
--register 65
--omega 3
--omega 20
--interval-log 3
--interval-log 12
--vmin-code 16
--vmax-code 16
--umax 7
--umax 33
--gamma-star 3
--gamma-star 10
--gamma-zero 0
--gamma-zero 9
--k 15
--coder both
--coder block --block 12
--block 4
--block 128
--reference 0
--reference 4097
--predictors 65
--slots 0
--slots 65537
--layout pixel
--bytes 0
--bytes 3
--user four
--user 4294967296
--user";

/// Lines with a size out of its range.
const SIZES: &str = "compress --columns=0 --rows=2 --bands=2 --bits=8 a b
compress --columns=65537 --rows=2 --bands=2 --bits=8 a b
compress --columns=3 --rows=0 --bands=2 --bits=8 a b
compress --columns=3 --rows=65537 --bands=2 --bits=8 a b
compress --columns=3 --rows=2 --bands=0 --bits=8 a b
compress --columns=3 --rows=2 --bands=65537 --bits=8 a b
compress --columns=3 --rows=2 --bands=2 --bits=1 a b
compress --columns=3 --rows=2 --bands=2 --bits=17 a b";

/// Other lines that are refused; the first one is empty.
const OTHERS: &str = "
help
--help
-h
--version
-V
zip
Show
sho
show now
show --
show --bytes 1
inspect --
inspect file
inspect --help
show show
compress
compress --rows=2 --bands=2 --bits=8 a b
compress --columns=3 --bands=2 --bits=8 a b
compress --columns=3 --rows=2 --bits=8 a b
compress --columns=3 --rows=2 --bands=2 a b
compress --columns=3 --rows=2 --bands=2 --bits=8 a
compress --columns=3 --rows=2 --bands=2 --bits=8
compress --columns=3 --rows=2 --bands=2 --bits=8 a b c
compress --columns=3 --rows=2 --bands=2 --bits=8 a a
compress --columns=3 --rows=2 --bands=2 --bits=8 --columns=3 a b
compress --columns=3 --rows=2 --bands=2 --bits=8 --signed --signed a b
compress --columns=3 --rows=2 --bands=2 --bits=8 --signed=true a b
compress --columns=3 --rows=2 --bands=2 --bits=8 --sig a b
compress --columns=3 --rows=2 --bands=2 --bits=8 --prev 1 a b
compress --columns=3 --rows=2 --bands=2 --bits=8 --unknown a b
compress --columns=3 --rows=2 --bands=2 --bits=8 -x a b
compress --columns=3 --rows=2 --bands=2 --bits=8 --help a b
compress --columns=3 --rows=2 --bands=2 --bits=4 --restricted=true a b
compress --columns=3 --rows=2 --bands=2 --bits=4 --restricted --restricted a b
expand
expand a
expand a a
expand a b c
expand --columns=3 a b
expand --bytes 1 --bytes 1 a b
expand --bytes 0 a b
expand --bytes 3 a b
expand --bytes two a b
expand --layout pixel a b
expand --little=true a b
expand --little --little a b";

/// Asserts that a line is refused as `Usage`.
fn is_usage(rt: &impl Abort, alloc: Global, line: &str) {
    let refused = parsed(alloc, line).err();
    same(rt, (line, refused), (line, Some(Fault::Usage)));
}

#[test]
fn values_out_of_range_are_usage(rt: HostRuntime) {
    for option in VALUES.split('\n') {
        is_usage(&rt, rt.alloc(), &image_with(&rt, rt.alloc(), option));
    }
}

#[test]
fn sizes_out_of_range_are_usage(rt: HostRuntime) {
    for line in SIZES.split('\n') {
        is_usage(&rt, rt.alloc(), line);
    }
}

#[test]
fn other_lines_are_usage(rt: HostRuntime) {
    for line in OTHERS.split('\n') {
        is_usage(&rt, rt.alloc(), line);
    }
}
