//! Reading the parameters of worked files from words such as `rows=2`.

ghost use Rattle.cube_core.specs.Layout.{IsLayout};

use cube_core::kind::Kind;
use cube_core::layout::{Layout, RawOrder};
use cube_core::order::Order;
use cube_core::shape::Shape;
use header_bits::params::{Coder, CountStart, Params, WeightStart};
use header_bits::tables::{ConstantTable, WeightTable};
use std::alloc::Global;
use std::process::Abort;

/// The parameters and the bytes of a raw sample of a worked file for which its row gives no others.
///
/// A depth of 0 stands for band-sequential order. `reduced=1` means reduced mode and column-oriented sums, otherwise
/// full mode and neighbour-oriented sums. With a reference interval the coder is the block-adaptive one. With a
/// resolution there is a weight table, such as `weights=-1,2`; `constants=3,0` is an accumulator table.
const COMMON: &str =
    "columns=1 rows=1 bands=1 signed=0 bits=8 bytes=1 depth=0 word=1 previous=0 reduced=1 \
    register=32 omega=13 interval_log=6 vmin=-1 vmax=3 resolution=0 umax=16 constant=3 restricted=0 reference=0";

/// Returns the value of a name in words such as `rows=2`, or an empty string if it has none.
fn given<'a>(words: &'a str, name: &str) -> &'a str {
    for word in words.split(' ') {
        let (own, number) = word.split_once('=').unwrap_or(("", ""));
        if own == name {
            return number;
        }
    }
    ""
}

/// Returns the number of a name: that of the words, or else the common one.
fn told(rt: &impl Abort, words: &str, name: &str) -> i32 {
    let own = given(words, name);
    let number = if own.is_empty() {
        given(COMMON, name)
    } else {
        own
    };
    number.parse::<i32>().expect(rt, name)
}

/// Returns the number of a name, which isn't negative.
fn number(rt: &impl Abort, words: &str, name: &str) -> u32 {
    u32::try_from(told(rt, words, name)).expect(rt, name)
}

/// Returns the encoding order.
fn order(rt: &impl Abort, words: &str) -> Order {
    match number(rt, words, "depth") {
        0 => Order::Bsq,
        depth => Order::Bi(depth),
    }
}

/// Returns the weight initialization.
fn start(rt: &impl Abort, alloc: Global, words: &str) -> WeightStart {
    match number(rt, words, "resolution") {
        0 => WeightStart::Usual,
        q => WeightStart::Table {
            q,
            values: WeightTable::new(table(rt, alloc, words, "weights")),
        },
    }
}

/// Returns the accumulator initialization: one constant, or one for each band.
fn constants(rt: &impl Abort, alloc: Global, words: &str) -> CountStart {
    if given(words, "constants").is_empty() {
        return CountStart::Constant(number(rt, words, "constant"));
    }
    let mut constants = Vec::new(alloc);
    for constant in &table(rt, alloc, words, "constants") {
        let constant = u8::try_from(*constant).expect(rt, "a constant");
        constants.push(constant).expect(rt, "memory");
    }
    CountStart::Each(ConstantTable::new(constants))
}

/// Returns the numbers of a table, separated by commas in the words; none if they don't give it.
fn table(rt: &impl Abort, alloc: Global, words: &str, name: &str) -> Vec<i32> {
    let mut numbers = Vec::new(alloc);
    for number in given(words, name).split(',') {
        if !number.is_empty() {
            let number = number.parse::<i32>().expect(rt, name);
            numbers.push(number).expect(rt, "memory");
        }
    }
    numbers
}

/// Returns the coder.
fn coder(rt: &impl Abort, alloc: Global, words: &str) -> Coder {
    match number(rt, words, "reference") {
        0 => Coder::Sample {
            umax: number(rt, words, "umax"),
            gamma_star: 6,
            gamma_zero: 1,
            start: constants(rt, alloc, words),
        },
        reference => Coder::Block {
            size: 8,
            restricted: number(rt, words, "restricted") == 1,
            reference,
        },
    }
}

/// Returns the common parameters, changed by words such as `rows=2`.
pub(crate) fn params_of(rt: &impl Abort, alloc: Global, words: &str) -> Params {
    let columns = number(rt, words, "columns");
    let rows = number(rt, words, "rows");
    let bands = number(rt, words, "bands");
    let signed = number(rt, words, "signed") == 1;
    let bits = number(rt, words, "bits");
    let reduced = number(rt, words, "reduced") == 1;
    Params {
        order: order(rt, words),
        word: number(rt, words, "word"),
        previous: number(rt, words, "previous"),
        reduced,
        column: reduced,
        register: number(rt, words, "register"),
        omega: number(rt, words, "omega"),
        interval_log: number(rt, words, "interval_log"),
        vmin: told(rt, words, "vmin"),
        vmax: told(rt, words, "vmax"),
        start: start(rt, alloc, words),
        coder: coder(rt, alloc, words),
        ..Params::plain(
            Shape::new(columns, rows, bands).expect(rt, "a shape"),
            Kind::new(signed, bits).expect(rt, "a kind"),
        )
    }
}

/// Returns the layout of raw samples of one byte, or of two if the words say so, band after band, the high byte first.
pub(crate) fn layout_of(rt: &impl Abort, words: &str) -> Layout
    ensures { IsLayout result }
{
    Layout {
        order: RawOrder::Bsq,
        bytes: if number(rt, words, "bytes") == 2 {
            2
        } else {
            1
        },
        little: false,
    }
}
