//! Coding an image while its raw bytes are read, some rows at a time.

ghost use Rattle.std.specs.Prelude.{◌≡◌, ◌⊎◌, ◌+◌, ◌-◌, ◌*◌, ◌≤◌, ℕ, List, Option, [], length, IsTrue, IfOk, IfErr, OnOk};
ghost use Rattle.cube_core.specs.declared.fault.Fault.TheVariants.{WantOfMemory};
ghost use Rattle.cube_core.specs.Layout.{IsLayout};
ghost use Rattle.cube_core.specs.Raw.{IsBadSample};
ghost use Rattle.header_bits.specs.Lawful.{IsLawful};
ghost use Rattle.file_encoding.specs.ByRows.{IsUnderWay, rows_of_order};
ghost use Rattle.raw_streams.specs.Rows.{IsRowRefusal, row_bytes, rows_in};
ghost use Rattle.raw_streams.specs.Streams.{IsRawRefusal, most_read};
ghost use Rattle.raw_rows.specs.Together.{GoTogether};
ghost use Rattle.ccsds_command.specs.ByRows.{HandedOn, HasCome};
ghost use Rattle.ccsds_command.specs.Compress.{HasFile, IsCubeRefusal, raw_limit};
ghost use Rattle.ccsds_command.specs.Taking.{IsTaker};
ghost use Rattle.command_devices.specs.Devices.{Gave, GaveWithin};
ghost use Rattle.command_devices.specs.Reading.{ToldAsRead};

use crate::row_taker::{RowTaker, row_length, rows_at_once};
use command_devices::source::Source;
use command_words::settings::CompressSettings;
use cube_core::fault::Fault;
use cube_core::layout::RawOrder;
use cube_core::order::Order;
use file_encoding::row_encoder::RowEncoder;
use header_bits::params::Params;
use raw_rows::one_row::{row_count, row_samples};
use raw_streams::rows::{read_rest, read_rows};
use std::alloc::Global;

/// The fewest rows of an image that is coded while it is read. Four rows of all bands are kept, which is no gain where there are few.
const FEWEST_ROWS: u32 = 8;

/// The most samples in a row of all its bands: what is kept is allocated before anything is read.
const MOST_SAMPLES: u64 = 1 << 24;

/// The planes that are kept beside those of the previous bands, in band-sequential order: those of the eight bands in hand.
const PLANES: u64 = 8;

/// The samples from which on an image is large: to hold one of fewer takes less than 2 MB, and planes have to be cleared first.
const LARGE: u64 = 1 << 20;

/// The most samples in the planes that are kept.
const MOST_PLANE_SAMPLES: u64 = 1 << 28;

/// Returns whether an image is coded while it is read: its raw bytes bring the rows that its order codes, one after another, and what
/// is kept is less than the image.
pub(crate) fn goes_by_rows(settings: &CompressSettings) -> bool
    ensures { IsTrue result → GoTogether settings.now.layout.order settings.now.params.order }
{
    let params = &settings.params;
    match (settings.layout.order, params.order) {
        (RawOrder::Bsq, Order::Bsq) => has_short_rows(params) && has_few_planes(params),
        (RawOrder::Bsq, Order::Bi(_)) | (_, Order::Bsq) => false,
        _ => has_short_rows(params),
    }
}

/// Returns whether a few rows of all bands are less than the image, and not too much.
fn has_short_rows(params: &Params) -> bool {
    let shape = params.shape;
    let row = u64::from(shape.bands()) * u64::from(shape.columns());
    shape.rows() >= FEWEST_ROWS && row <= MOST_SAMPLES
}

/// Returns whether the planes that are kept in band-sequential order are at most three quarters of the image, or a third of a small one;
/// and not too much.
fn has_few_planes(params: &Params) -> bool {
    let shape = params.shape;
    let kept = u64::from(params.previous) + PLANES;
    let plane = u64::from(shape.rows()) * u64::from(shape.columns());
    let bands = u64::from(shape.bands());
    let most = if bands * plane < LARGE {
        bands / 3
    } else {
        bands * 3 / 4
    };
    kept <= most && kept * plane <= MOST_PLANE_SAMPLES
}

/// Returns the file of the cube whose raw bytes the source has. Beside the file, it keeps the rows, or the planes, that prediction reads,
/// and the rows that are read at once.
pub(crate) fn file_by_rows<S: Source>(
    alloc: Global,
    source: &mut S,
    settings: &CompressSettings,
) -> Result<Vec<u8>, Fault>
    requires lawful { IsLawful settings.now.params }
    requires layout { IsLayout settings.now.layout }
    requires together { GoTogether settings.now.layout.order settings.now.params.order }
    ensures file { IfOk result (λ file. HasFile settings.now (S.left source.old) file.items) }
    ensures refused { IfErr result (IsCubeRefusal settings.now (S.left source.old) (S.failures source.old) (S.failures source.new)) }
    ensures worked { OnOk result (S.failures source.new ≡ S.failures source.old) }
    ensures told { IfErr result (ToldAsRead (S.failures source.old) (S.failures source.new)) }
    ensures bounded { GaveWithin (λ _. raw_limit settings.now) (S.left source.old) (S.left source.new) }
{
    let encoder = RowEncoder::new(alloc, &settings.params)?;
    let (most, length) = (rows_at_once(settings), row_length(settings));
    let mut room = vec![in alloc; 0u8; most * length]?;
    let taker = RowTaker::new(alloc, settings, most)?;
    let encoder = code_rows(source, settings, most, taker, encoder, &mut room)?;
    let (shape, layout) = (settings.params.shape, settings.layout);
    let rows = row_count(layout, shape);
    read_rest(source, shape, layout, rows, &mut room[..length])?;
    encoder.finish()
}

/// Reads all rows, at most `most` at a time, and hands them to the encoder.
///
/// Returns `Read`, `RawLength` or `SampleRange` as `code_next` does; and `WantOfMemory` if an allocation fails.
fn code_rows<S: Source>(
    source: &mut S,
    settings: &CompressSettings,
    most: usize,
    taker: RowTaker,
    encoder: RowEncoder,
    room: &mut [u8],
) -> Result<RowEncoder, Fault>
    requires layout { IsLayout settings.now.layout }
    requires together { GoTogether settings.now.layout.order settings.now.params.order }
    requires some { 1 ≤ most }
    requires taker { IsTaker settings.now most taker }
    requires under_way { IsUnderWay settings.now.params encoder }
    requires none { (encoder.y ≡ 0) × (encoder.offsets ≡ []) }
    requires room { length room.old ≡ most * row_bytes settings.now.params.shape settings.now.layout }
    ensures coded { IfOk result (λ e. IsUnderWay settings.now.params e × (e.y ≡ (rows_of_order settings.now.params.order settings.now.params.shape).rows)
        × HasCome settings.now e (S.left source.old) (S.left source.new)) }
    ensures long { length room.new ≡ length room.old }
    ensures worked { OnOk result (S.failures source.new ≡ S.failures source.old) }
    ensures refused { IfErr result (IsRawRefusal settings.now.params.shape settings.now.params.kind settings.now.layout (S.left source.old)
        (S.failures source.old) (S.failures source.new)) }
    ensures told { IfErr result (ToldAsRead (S.failures source.old) (S.failures source.new)) }
    ensures bounded { IfErr result (λ _. GaveWithin (λ _. most_read settings.now.params.shape settings.now.layout) (S.left source.old) (S.left source.new)) }
{
    let rows = row_count(settings.layout, settings.params.shape);
    let length = row_length(settings);
    let mut taker = taker;
    let mut encoder = encoder;
    let mut y = 0;
    while y < rows {
        let count = (most as u64).min(rows - y);
        let bytes = &mut room[..count as usize * length];
        taker = code_next(source, settings, y, count, taker, &mut encoder, bytes)?;
        y += count;
    }
    Ok(encoder)
}

/// Reads the next `count` rows, from row `y` on, and hands them to the encoder.
///
/// Returns `Read` if the source fails, and `RawLength` if it ends within these rows; if a sample isn't of the kind, what `refusal` does; and
/// `WantOfMemory` if an allocation fails.
fn code_next<S: Source>(
    source: &mut S,
    settings: &CompressSettings,
    y: u64,
    count: u64,
    taker: RowTaker,
    encoder: &mut RowEncoder,
    bytes: &mut [u8],
) -> Result<RowTaker, Fault>
    requires layout { IsLayout settings.now.layout }
    requires together { GoTogether settings.now.layout.order settings.now.params.order }
    requires taker { (most : ℕ) × (count ≤ most) × IsTaker settings.now most taker }
    requires under_way { IsUnderWay settings.now.params encoder.old }
    requires at { encoder.old.y ≡ y }
    requires some { 1 ≤ count }
    requires inside { y + count ≤ rows_in settings.now.params.shape settings.now.layout }
    requires bytes { length bytes.old ≡ count * row_bytes settings.now.params.shape settings.now.layout }
    ensures handed { OnOk result (HandedOn settings.now encoder.old encoder.new count bytes.new) }
    ensures given { OnOk result (Gave (S.left source.old) (S.left source.new) bytes.new) }
    ensures taker { IfOk result (λ t. (most : ℕ) → IsTaker settings.now most taker → IsTaker settings.now most t) }
    ensures long { length bytes.new ≡ length bytes.old }
    ensures worked { OnOk result (S.failures source.new ≡ S.failures source.old) }
    ensures refused { IfErr result (λ e. (e ≡ WantOfMemory) ⊎ IsRowRefusal settings.now.params.shape settings.now.params.kind settings.now.layout y
        (S.left source.old) (S.left source.new) (S.failures source.old) (S.failures source.new) e) }
    ensures told { IfErr result (ToldAsRead (S.failures source.old) (S.failures source.new)) }
    ensures bounded { GaveWithin (λ _. most_read settings.now.params.shape settings.now.layout - y * row_bytes settings.now.params.shape settings.now.layout)
        (S.left source.old) (S.left source.new) }
{
    let (shape, layout) = (settings.params.shape, settings.layout);
    read_rows(source, shape, layout, y, count, bytes)?;
    match taker.hand_on(settings, count as usize, encoder, bytes) {
        Ok(taker) => Ok(taker),
        Err(fault) => Err(refusal(source, settings, y, count, fault, bytes)),
    }
}

/// Returns why `count` rows, from row `y` on, aren't coded. They were read, and are refused with `fault`.
///
/// If a sample isn't of the kind, it reads on to the end: it returns `Read` or `RawLength` if the rest of the scene calls for these, else
/// `SampleRange` with the sample's index in the scene.
fn refusal<S: Source>(
    source: &mut S,
    settings: &CompressSettings,
    y: u64,
    count: u64,
    fault: Fault,
    bytes: &mut [u8],
) -> Fault
    requires layout { IsLayout settings.now.layout }
    requires some { 1 ≤ count }
    requires inside { y + count ≤ rows_in settings.now.params.shape settings.now.layout }
    requires bytes { length bytes.old ≡ count * row_bytes settings.now.params.shape settings.now.layout }
    requires fault { (fault ≡ WantOfMemory) ⊎ IsBadSample settings.now.params.kind settings.now.layout bytes.old fault }
    ensures refused { (left : Option (List ℕ)) → Gave left (S.left source.old) bytes.old → (result ≡ WantOfMemory) ⊎ IsRowRefusal settings.now.params.shape
        settings.now.params.kind settings.now.layout y left (S.left source.new) (S.failures source.old) (S.failures source.new) result }
    ensures told { ToldAsRead (S.failures source.old) (S.failures source.new) result }
    ensures bounded { (left : Option (List ℕ)) → Gave left (S.left source.old) bytes.old
        → GaveWithin (λ _. most_read settings.now.params.shape settings.now.layout - y * row_bytes settings.now.params.shape settings.now.layout) left (S.left source.new) }
    ensures long { length bytes.new ≡ length bytes.old }
{
    let (shape, layout) = (settings.params.shape, settings.layout);
    // There are at most 2^32 rows.
    let _rows = row_count(layout, shape);
    match fault {
        Fault::SampleRange { index } => {
            let one = &mut bytes[..row_length(settings)];
            match read_rest(source, shape, layout, y + count, one) {
                Ok(()) => Fault::SampleRange {
                    index: y * row_samples(layout, shape) + index,
                },
                Err(fault) => fault,
            }
        }
        _ => fault,
    }
}
