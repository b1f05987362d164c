//! Tests of what each option does, but for `--restricted`, which `tests/options.py` tests.

use super::lines::{IMAGE, compressed, compression, expansion, image_with, parsed, told};
use crate::tests::checks::same;
use command_words::settings::Settings;
use cube_core::layout::{Layout, RawOrder};
use std::alloc::Global;
use std::process::Abort;

/// The samples of the image of `IMAGE`, of two bytes each.
const SAMPLES: [u8; 24] = [0; 24];

/// The file of two samples of 200, one row below the other.
const TWO_EQUAL_FILE: [u8; 21] = [
    0x00, 0x00, 0x01, 0x00, 0x02, 0x00, 0x01, 0x11, 0x00, 0x00, 0x08, 0x00, 0x02, 0xA0, 0x92, 0x59,
    0x00, 0x82, 0x26, // the header
    0x90, 0x80, // 144 and 0
];

const DEFAULTS: &str =
    "\nuser 0\ncolumns 3\nrows 2\nbands 2\nsample unsigned\nbits 8\norder bsq\nword 1\ncoder sample\nprevious 3\nmode full\nsums neighbour\nregister 64\nomega 13\ninterval 64\nvmin -1\nvmax 3\nstart usual\numax 16\ngamma-star 6\ngamma-zero 1\nk 3\nheader 19\n";

/// Options of `IMAGE`, and a line that `inspect` writes with them.
static OPTIONS: [(&str, &str); 23] = [
    ("--signed", "sample signed"),
    ("--order bi", "order bi 1"),
    ("--order bi --depth 2", "order bi 2"),
    ("--user 255", "user 255"),
    ("--word 8", "word 8"),
    ("--previous 15", "previous 15"),
    ("--reduced", "mode reduced"),
    ("--column-sums", "sums column"),
    ("--register 40", "register 40"),
    ("--omega 4", "omega 4"),
    ("--interval-log 11", "interval 2048"),
    ("--vmin-code 0", "vmin -6"),
    ("--vmax-code 15", "vmax 9"),
    ("--umax 32", "umax 32"),
    ("--gamma-star 9", "gamma-star 9"),
    ("--gamma-zero 2", "gamma-zero 2"),
    ("--k 6", "k 6"),
    ("--coder block", "coder block"),
    ("--coder block", "block 8"),
    ("--coder block", "restricted no"),
    ("--coder block", "reference 64"),
    ("--coder block --block 64", "block 64"),
    ("--coder block --reference 4096", "reference 4096"),
];

/// Options, and the layout of raw bytes with them.
static LAYOUTS: [(&str, RawOrder, u32, bool); 5] = [
    ("--layout bsq", RawOrder::Bsq, 2, false),
    ("--layout bil", RawOrder::Bil, 2, false),
    ("--layout bip", RawOrder::Bip, 2, false),
    ("--bytes 1", RawOrder::Bsq, 1, false),
    ("--little", RawOrder::Bsq, 2, true),
];

#[test]
fn defaults(rt: HostRuntime) {
    let told = told(rt.alloc(), IMAGE, &SAMPLES).expect(&rt, "no refusal");
    same(&rt, told.as_str(), DEFAULTS);
}

/// Asserts that `inspect` writes this line for a file with these options.
fn tells(rt: &impl Abort, alloc: Global, options: &str, wanted: &str) {
    let line = image_with(rt, alloc, options);
    let told = told(alloc, &line, &SAMPLES).expect(rt, "no refusal");
    let line = format!(in alloc; "\n{wanted}\n").expect(rt, "memory");
    let found = told.as_str().contains(line.as_str());
    same(rt, (options, found), (options, true));
}

#[test]
fn each_option_reaches_its_parameter(rt: HostRuntime) {
    for (options, wanted) in &OPTIONS {
        tells(&rt, rt.alloc(), options, wanted);
    }
}

#[test]
fn each_size_reaches_its_parameter(rt: HostRuntime) {
    let line = "compress --columns=2 --rows=3 --bands=1 --bits=16 --k 14 a b";
    let told = told(rt.alloc(), line, &[0; 12]).expect(&rt, "no refusal");
    assert!(rt; told.as_str().contains("\ncolumns 2\nrows 3\nbands 1\n"));
    assert!(rt; told.as_str().contains("\nbits 16\n"));
}

#[test]
fn a_line_of_options_makes_its_file(rt: HostRuntime) {
    let line =
        "compress --columns 1 --rows=2 --bands 1 --bits 8 --bytes 1 --previous 0 --reduced --column-sums --register 32 a b";
    let file = compressed(rt.alloc(), line, &[0xC8, 0xC8]).expect(&rt, "no refusal");
    same(&rt, file.as_slice(), TWO_EQUAL_FILE.as_slice());
}

/// Asserts that a line is a compression in this layout, from `a` to `b`.
fn compresses_in(rt: &impl Abort, alloc: Global, line: &str, wanted: Layout) {
    let (settings, from, to) = compression(alloc, line).expect(rt, "a compression");
    same(rt, (line, settings.layout), (line, wanted));
    same(rt, (from.as_str(), to.as_str()), ("a", "b"));
}

/// Asserts that a line is an expansion in this layout, from `c` to `d`.
fn expands_in(rt: &impl Abort, alloc: Global, line: &str, wanted: Layout) {
    let (layout, from, to) = expansion(alloc, line).expect(rt, "an expansion");
    same(rt, (line, layout), (line, wanted));
    same(rt, (from.as_str(), to.as_str()), ("c", "d"));
}

/// Asserts that a compression and an expansion with these options are in this layout.
fn has_layout(rt: &impl Abort, alloc: Global, options: &str, wanted: Layout) {
    compresses_in(rt, alloc, &image_with(rt, alloc, options), wanted);
    let line = format!(in alloc; "expand {options} c d").expect(rt, "memory");
    expands_in(rt, alloc, &line, wanted);
}

#[test]
fn layouts(rt: HostRuntime) {
    let usual = Layout {
        order: RawOrder::Bsq,
        bytes: 2,
        little: false,
    };
    compresses_in(&rt, rt.alloc(), IMAGE, usual);
    expands_in(&rt, rt.alloc(), "expand c d", usual);
    for &(options, order, bytes, little) in &LAYOUTS {
        let wanted = Layout {
            order,
            bytes,
            little,
        };
        has_layout(&rt, rt.alloc(), options, wanted);
    }
}

/// Asserts that a line is a compression with these numbers of predictors and slots.
fn deals(rt: &impl Abort, alloc: Global, line: &str, predictors: u32, slots: u32) {
    let (settings, _from, _to) = compression(alloc, line).expect(rt, "a compression");
    same(rt, settings.predictors, predictors);
    same(rt, settings.slots, slots);
}

#[test]
fn predictors_and_slots(rt: HostRuntime) {
    deals(&rt, rt.alloc(), IMAGE, 0, 1024);
    let line = image_with(&rt, rt.alloc(), "--predictors 64 --slots 65536");
    deals(&rt, rt.alloc(), &line, 64, 65_536);
}

#[test]
fn commands_without_options(rt: HostRuntime) {
    assert!(rt; matches!(parsed(rt.alloc(), "show"), Ok(Settings::Show)));
    assert!(rt; matches!(parsed(rt.alloc(), "inspect"), Ok(Settings::Inspect)));
}
