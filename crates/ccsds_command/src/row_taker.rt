//! Rows that are taken from their raw bytes, and handed to an encoder.

ghost use Rattle.std.specs.Prelude.{◌≡◌, ◌⊎◌, ◌+◌, ◌*◌, ◌≤◌, ◌^◌, ℕ, length, IfOk, IfErr, OnOk};
ghost use Rattle.cube_core.specs.declared.fault.Fault.TheVariants.{WantOfMemory};
ghost use Rattle.cube_core.specs.declared.layout.RawOrder.TheVariants.{Bsq};
ghost use Rattle.cube_core.specs.Layout.{IsLayout};
ghost use Rattle.cube_core.specs.Raw.{IsBadSample};
ghost use Rattle.file_encoding.specs.ByRows.{IsUnderWay};
ghost use Rattle.raw_rows.specs.OneRow.{one_row as row_of, rows_of_raw};
ghost use Rattle.raw_rows.specs.Together.{GoTogether};
ghost use Rattle.raw_streams.specs.Rows.{row_bytes, rows_in, samples_in_row};
ghost use Rattle.ccsds_command.specs.ByRows.{HandedOn};
ghost use Rattle.ccsds_command.specs.Taking.{IsJoined, IsTaker};

use command_words::settings::CompressSettings;
use cube_core::cube::Cube;
use cube_core::fault::Fault;
use cube_core::layout::RawOrder;
use cube_core::shape::Shape;
use file_encoding::row_encoder::RowEncoder;
use raw_rows::one_row::{one_row, row_samples, take_row};
use raw_streams::joined::take_front;
use std::alloc::Global;

/// The bytes that hold the rows that are read at once; a longer row is read alone.
const PIECE: usize = 1 << 16;

/// Returns the number of raw bytes of a row.
pub(crate) fn row_length(settings: &CompressSettings) -> usize
    requires { IsLayout settings.now.layout }
    ensures value { result ≡ row_bytes settings.now.params.shape settings.now.layout }
    ensures range { (1 ≤ result) × (result ≤ 2 ^ 33) }
{
    let samples = row_samples(settings.layout, settings.params.shape) as usize;
    samples * settings.layout.bytes as usize
}

/// Returns how many rows are read at once: as many as fit in a piece, and at least one.
pub(crate) fn rows_at_once(settings: &CompressSettings) -> usize
    requires { IsLayout settings.now.layout }
    ensures some { 1 ≤ result }
    ensures few { (result ≡ 1) ⊎ (result * row_bytes settings.now.params.shape settings.now.layout ≤ 2 ^ 16) }
{
    (PIECE / row_length(settings)).max(1)
}

/// What takes the samples of rows.
#[derive(Drop)]
pub(crate) enum RowTaker {
    /// Of rows of all bands, one after another: a cube of one row, and its samples, band after band.
    Single { row: Cube, samples: Vec<u16> },
    /// Of rows of one band, together: a cube of one row that is as long as all of them.
    Joined { row: Cube },
}

impl RowTaker {
    /// Returns what takes up to `most` rows at once.
    ///
    /// Returns `WantOfMemory` if an allocation fails.
    pub(crate) fn new(
        alloc: Global,
        settings: &CompressSettings,
        most: usize,
    ) -> Result<RowTaker, Fault>
        requires layout { IsLayout settings.now.layout }
        requires some { 1 ≤ most }
        requires few { (most ≡ 1) ⊎ (most * row_bytes settings.now.params.shape settings.now.layout ≤ 2 ^ 16) }
        ensures taker { IfOk result (IsTaker settings.now most) }
        ensures refused { IfErr result (λ e. e ≡ WantOfMemory) }
    {
        let (shape, kind) = (settings.params.shape, settings.params.kind);
        let size = row_samples(settings.layout, shape) as usize;
        match settings.layout.order {
            RawOrder::Bsq => Ok(RowTaker::Joined {
                row: Cube::new(alloc, joined_row(shape, most as u32), kind)?,
            }),
            RawOrder::Bil | RawOrder::Bip => {
                Ok(RowTaker::Single {
                    row: Cube::new(alloc, one_row(settings.layout, shape), kind)?,
                    samples: vec![in alloc; 0u16; size]?,
                })
            }
        }
    }

    /// Hands `count` rows to the encoder, one after another.
    ///
    /// Returns `SampleRange` with the index, in the rows' raw bytes, of the first sample that isn't of the kind; and `WantOfMemory` if an
    /// allocation fails.
    pub(crate) fn hand_on(
        self,
        settings: &CompressSettings,
        count: usize,
        encoder: &mut RowEncoder,
        bytes: &[u8],
    ) -> Result<RowTaker, Fault>
        requires layout { IsLayout settings.now.layout }
        requires together { GoTogether settings.now.layout.order settings.now.params.order }
        requires taker { (most : ℕ) × (count ≤ most) × IsTaker settings.now most self }
        requires under_way { IsUnderWay settings.now.params encoder.old }
        requires inside { encoder.old.y + count ≤ rows_in settings.now.params.shape settings.now.layout }
        requires bytes { length bytes.now ≡ count * row_bytes settings.now.params.shape settings.now.layout }
        ensures handed { OnOk result (HandedOn settings.now encoder.old encoder.new count bytes.now) }
        ensures taker { IfOk result (λ t. (most : ℕ) → IsTaker settings.now most self → IsTaker settings.now most t) }
        ensures refused { IfErr result (λ e. (e ≡ WantOfMemory) ⊎ IsBadSample settings.now.params.kind settings.now.layout bytes.now e) }
    {
        match self {
            RowTaker::Single { row, mut samples } => {
                let row = hand_on_each(settings, count, row, encoder, bytes, &mut samples)?;
                Ok(RowTaker::Single { row, samples })
            }
            RowTaker::Joined { row } => {
                let row = hand_on_joined(settings, count, row, encoder, bytes)?;
                Ok(RowTaker::Joined { row })
            }
        }
    }
}

/// Returns the shape of a row of one band that is as long as `most` rows.
fn joined_row(shape: Shape, most: u32) -> Shape
    requires some { 1 ≤ most }
    requires few { most * shape.columns ≤ 65536 }
    ensures { result ≡ record { columns = most * shape.columns; rows = 1; bands = 1 } }
{
    match Shape::new(most * shape.columns(), 1, 1) {
        Ok(row) => row,
        Err(_) => unreachable!(),
    }
}

/// `hand_on` of rows that are taken one by one.
fn hand_on_each(
    settings: &CompressSettings,
    count: usize,
    row: Cube,
    encoder: &mut RowEncoder,
    bytes: &[u8],
    samples: &mut [u16],
) -> Result<Cube, Fault>
    requires layout { IsLayout settings.now.layout }
    requires together { GoTogether settings.now.layout.order settings.now.params.order }
    requires row { (row.shape ≡ row_of (rows_of_raw settings.now.layout.order settings.now.params.shape)) × (row.kind ≡ settings.now.params.kind) }
    requires under_way { IsUnderWay settings.now.params encoder.old }
    requires inside { encoder.old.y + count ≤ rows_in settings.now.params.shape settings.now.layout }
    requires bytes { length bytes.now ≡ count * row_bytes settings.now.params.shape settings.now.layout }
    requires samples { length samples.old ≡ samples_in_row settings.now.params.shape settings.now.layout }
    ensures handed { OnOk result (HandedOn settings.now encoder.old encoder.new count bytes.now) }
    ensures row { IfOk result (λ c. (c.shape ≡ row_of (rows_of_raw settings.now.layout.order settings.now.params.shape)) × (c.kind ≡ settings.now.params.kind)) }
    ensures long { length samples.new ≡ length samples.old }
    ensures refused { IfErr result (λ e. (e ≡ WantOfMemory) ⊎ IsBadSample settings.now.params.kind settings.now.layout bytes.now e) }
{
    let size = samples.len();
    let length = size * settings.layout.bytes as usize;
    let mut row = row;
    for i in 0..count {
        let line = &bytes[i * length..(i + 1) * length];
        match take_row(row, settings.layout, line, samples) {
            Ok(taken) => {
                encoder.row(&settings.params, samples)?;
                row = taken;
            }
            Err(index) => {
                let index = (i * size) as u64 + index;
                return Err(Fault::SampleRange { index });
            }
        }
    }
    Ok(row)
}

/// `hand_on` of rows of one band that are taken together.
fn hand_on_joined(
    settings: &CompressSettings,
    count: usize,
    row: Cube,
    encoder: &mut RowEncoder,
    bytes: &[u8],
) -> Result<Cube, Fault>
    requires layout { IsLayout settings.now.layout }
    requires together { GoTogether settings.now.layout.order settings.now.params.order }
    requires order { settings.now.layout.order ≡ Bsq }
    requires row { (most : ℕ) × (count ≤ most) × IsJoined settings.now most row }
    requires under_way { IsUnderWay settings.now.params encoder.old }
    requires inside { encoder.old.y + count ≤ rows_in settings.now.params.shape settings.now.layout }
    requires bytes { length bytes.now ≡ count * row_bytes settings.now.params.shape settings.now.layout }
    ensures handed { OnOk result (HandedOn settings.now encoder.old encoder.new count bytes.now) }
    ensures row { IfOk result (λ c. (c.shape ≡ row.shape) × (c.kind ≡ row.kind)) }
    ensures refused { IfErr result (λ e. (e ≡ WantOfMemory) ⊎ IsBadSample settings.now.params.kind settings.now.layout bytes.now e) }
{
    let columns = settings.params.shape.columns() as usize;
    let row = take_front(row, settings.layout, (count * columns) as u64, bytes)?;
    let samples = row.row(0, 0);
    for i in 0..count {
        let line = &samples[i * columns..(i + 1) * columns];
        encoder.row(&settings.params, line)?;
    }
    Ok(row)
}
